// A stream that holds two tokens of a source ready, so that `current` and `second` need not look for them again.
ghost use Rattle.std.specs.Prelude.{◌≡◌, true};
ghost use Rattle.input.specs.Streams.{has_place_if_any};
ghost use Rattle.input.specs.Held.{HeldFormed};

use crate::token::Token;
use crate::token_source::TokenSource;
use crate::token_stream::TokenStream;

// A source, two tokens that were taken from it and are held ready, and the token that was consumed last. The end stands for each of the two that is missing.
#[derive(Drop)]
pub struct Lookahead<S> {
    source: S,
    previous: Option<Token>,
    current: Token,
    second: Token,
    ghost before: { has_place_if_any previous ≡ true },
    ghost formed: { HeldFormed current second },
}

impl<S: TokenSource> Lookahead<S> {
    ghost use Rattle.input.specs.Lookahead.{opened, stream};

    pub fn open(mut source: S) -> Lookahead<S>
        ensures { stream S.TokenSource.supply result ≡ opened (S.TokenSource.supply source) }
    {
        let current = source.next_token();
        let second = source.next_token();
        Lookahead {
            source,
            previous: None,
            current,
            second,
        }
    }
}

impl<S: TokenSource> TokenStream for Lookahead<S> {
    ghost use Rattle.input.specs.Lookahead.{stream};
    ghost use Rattle.input.specs.Formed.{stream_formed};

    ghost meaning = { stream S.TokenSource.supply };

    ghost formed = { λ s. stream_formed S.TokenSource.supply s (S.TokenSource.formed s.source) };

    fn current(&self) -> Token {
        self.current
    }

    fn second(&self) -> Token {
        self.second
    }

    fn previous(&self) -> Option<Token> {
        self.previous
    }

    fn consume(&mut self) {
        if self.current.is_end() {
            return;
        }
        self.previous = Some(self.current);
        self.current = self.second;
        if !self.second.is_end() {
            self.second = self.source.next_token();
        }
    }
}
