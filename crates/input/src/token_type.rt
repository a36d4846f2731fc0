// Token types by name.
ghost use Rattle.std.specs.Prelude.{◌≡◌, pos};
ghost use Rattle.input.specs.TokenTypes.{number_of};

// The types of the tokens that a scanner gives. A grammar over other tokens may choose other numbers.
#[derive(Clone, Copy, Debug, PartialEq, Eq, Drop)]
pub enum TokenType {
    Unknown = 0,
    Name = 1,
    Number = 2,
    Assign = 3,
    Semicolon = 4,
    OpenParen = 5,
    CloseParen = 6,
    Plus = 7,
    Minus = 8,
    Star = 9,
    Slash = 10,
    Power = 11,
    Equal = 12,
    NotEqual = 13,
    Less = 14,
    LessOrEqual = 15,
    Greater = 16,
    GreaterOrEqual = 17,
    Ampersand = 18,
    Comma = 19,
    And = 20,
    Or = 21,
    Xor = 22,
    Not = 23,
    Mod = 24,
    Blank = 25,
    Comment = 26,
}

impl From<TokenType> for i32 {
    ghost from_gives = { λ t r. r ≡ pos (number_of t) };

    fn from(ttype: TokenType) -> i32 {
        ttype as i32
    }
}
