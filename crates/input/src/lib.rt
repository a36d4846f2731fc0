// Tokens, streams of them, the scanner of Structured Text and the channel filter.
#![tactic(auto)]

pub mod channel;
pub mod channel_filter;
pub mod examples;
pub mod lexeme;
mod lookahead;
pub mod scanner;
pub mod text;
pub mod token;
mod token_source;
pub mod token_stream;
pub mod token_type;
