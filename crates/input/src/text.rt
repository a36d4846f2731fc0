// The text of a program, of at most 65,536 bytes.
ghost use Rattle.std.specs.Prelude.{◌≡◌, ◌≤◌, length};

use std::error::Error;
use std::fmt;

// Of a longer slice, which no call makes a text of, the first 65,536 bytes count.
#[derive(Clone, Copy, Drop)]
pub struct Text<'a> {
    bytes: &'a [u8],
}

// Why a slice is refused: it has more than 65,536 bytes.
#[derive(Clone, Copy, Debug, PartialEq, Eq, Drop)]
pub struct TextTooLong;

impl TextTooLong {
    ghost use Rattle.input.specs.Text.{refusal_number};

    // A number, since each refusal has one by a rule of the project, and recordings print it.
    pub fn number(&self) -> u8
        ensures { result ≡ refusal_number self.now }
    {
        3
    }
}

impl fmt::Display for TextTooLong {
    ghost use Rattle.std.specs.Prelude.{Some};
    ghost use Rattle.input.specs.Text.{refusal_text};

    ghost output = { λ e. Some (refusal_text e) };

    fn fmt<W: fmt::Write>(&self, f: &mut fmt::Formatter<W>) -> fmt::Result {
        f.write_str("out of range")
    }
}

impl Error for TextTooLong {}

impl<'a> Text<'a> {
    ghost use Rattle.input.specs.Text.{bytes_of, Taken};

    // The most bytes that a text has.
    pub const LONGEST: usize = 65536;

    pub fn new(bytes: &'a [u8]) -> Result<Text<'a>, TextTooLong>
        ensures { Taken bytes.now result }
    {
        if bytes.len() > Self::LONGEST {
            return Err(TextTooLong);
        }
        Ok(Text { bytes })
    }

    pub fn bytes(&self) -> &'a [u8]
        ensures value { result.now ≡ bytes_of self.now }
        ensures short { length result.now ≤ 65536 }
    {
        if self.bytes.len() > Self::LONGEST {
            return &self.bytes[0..Self::LONGEST];
        }
        self.bytes
    }
}
