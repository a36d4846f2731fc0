// Where a parser takes its tokens from.
ghost use Rattle.std.specs.Prelude.{◌≡◌};
ghost use Rattle.input.specs.Streams.{Stream, WellFormed, current_token, second_token, moved};

use crate::token::Token;

// A stream means the previous token or none, the tokens ahead and the end. `current`, `second` and `previous` change nothing.
pub trait TokenStream {
    ghost meaning: { Self → Stream };

    // The meaning of every stream is well formed: what an implementation owes with it.
    ghost formed: { (s : Self) → WellFormed (meaning s) };

    // The first token ahead, or the end where none is.
    fn current(&self) -> Token
        ensures { result ≡ current_token (meaning self.now) };

    // The second token ahead, or the end where fewer than two are.
    fn second(&self) -> Token
        ensures { result ≡ second_token (meaning self.now) };

    // The token that was consumed last, if any.
    fn previous(&self) -> Option<Token>
        ensures { result ≡ (meaning self.now).previous };

    // Moves past the current token; at the end it does nothing.
    fn consume(&mut self)
        ensures { meaning self.new ≡ moved (meaning self.old) };
}
