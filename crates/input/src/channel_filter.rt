// What a parser sees of a stream: the tokens on channel 0.
ghost use Rattle.std.specs.Prelude.{◌≡◌};
ghost use Rattle.input.specs.Filter.{visible, filtered, filter_stream};
ghost use Rattle.input.specs.Formed.{visible_formed, filter_formed};

use crate::channel::Channel;
use crate::lookahead::Lookahead;
use crate::token::Token;
use crate::token_source::TokenSource;
use crate::token_stream::TokenStream;

// The tokens of a stream on channel 0, one by one.
#[derive(Drop)]
pub struct Visible<S> {
    stream: S,
}

impl<S: TokenStream> TokenSource for Visible<S> {
    ghost supply = { λ v. visible (S.TokenStream.meaning v.stream) };

    ghost formed = { λ v. visible_formed (S.TokenStream.meaning v.stream) (S.TokenStream.formed v.stream) };

    fn next_token(&mut self) -> Token {
        loop {
            let token = self.stream.current();
            self.stream.consume();
            if token.channel == Channel::Default.into() || token.is_end() {
                return token;
            }
        }
    }
}

// A stream over any stream: its tokens on channel 0.
#[derive(Drop)]
pub struct ChannelFilter<S> {
    tokens: Lookahead<Visible<S>>,
}

impl<S: TokenStream> ChannelFilter<S> {
    // At opening no token is previous, whatever the stream's own was.
    pub fn new(stream: S) -> ChannelFilter<S>
        ensures { filter_stream S.TokenStream.meaning result ≡ filtered (S.TokenStream.meaning stream) }
    {
        ChannelFilter {
            tokens: Lookahead::open(Visible { stream }),
        }
    }
}

impl<S: TokenStream> TokenStream for ChannelFilter<S> {
    ghost meaning = { filter_stream S.TokenStream.meaning };

    ghost formed = { filter_formed S.TokenStream.meaning S.TokenStream.formed };

    fn current(&self) -> Token {
        self.tokens.current()
    }

    fn second(&self) -> Token {
        self.tokens.second()
    }

    fn previous(&self) -> Option<Token> {
        self.tokens.previous()
    }

    fn consume(&mut self) {
        self.tokens.consume()
    }
}
