// Worked examples of the token rules.
ghost use Rattle.std.specs.Prelude.{◌≡◌};
ghost use Rattle.input.specs.Examples.{Examples};

// It promises that the examples hold. The 0 says nothing more; with no value there would be nothing in the body that an edit could turn.
pub fn examples_stand() -> u8
    ensures answer { result ≡ 0 }
    ensures examples { Examples }
{
    0
}
