// What finds tokens one by one, for a stream to hold ready.
ghost use Rattle.std.specs.Prelude.{◌≡◌};
ghost use Rattle.input.specs.Streams.{Supply, SupplyFormed, first_of, rest_of};

use crate::token::Token;

// A source means the tokens that it has still to give, and the end, which it gives again and again behind them.
pub trait TokenSource {
    ghost supply: { Self → Supply };

    // What every source has still to give is well formed: what an implementation owes with it.
    ghost formed: { (s : Self) → SupplyFormed (supply s) };

    // The next token, or the end once there is none.
    fn next_token(&mut self) -> Token
        ensures given { result ≡ first_of (supply self.old).tokens (supply self.old).end }
        ensures left { (supply self.new).tokens ≡ rest_of (supply self.old).tokens }
        ensures same { (supply self.new).end ≡ (supply self.old).end };
}
