// A token: a part of a text, or one that was made up.
ghost use Rattle.std.specs.Prelude.{◌≡◌};
ghost use Rattle.input.specs.Tokens.{is_end};

// The fields are numbers, by a rule of the project: each grammar chooses its types and channels, and recordings print an index of -1.
#[derive(Clone, Copy, Debug, PartialEq, Eq, Drop)]
pub struct Token {
    pub ttype: i32, // -1 is the end of the input; a token of the input has 0 to 65,535
    pub channel: u8,
    pub index: i32, // its place in the input, or -1 if it was made up
    pub offset: u32, // where its part of the text begins
    pub len: u32, // how many bytes its part has
}

impl Token {
    // The type of the token that stands at the end of the input.
    pub const END: i32 = -1;

    pub fn is_end(&self) -> bool
        ensures { result ≡ is_end self.now }
    {
        self.ttype == Self::END
    }
}
