// A line of a recording.
ghost use Rattle.std.specs.Prelude.{◌≡◌};
ghost use Rattle.replay.specs.Lines.{is_space, is_blank, is_comment, meaning, says};

use crate::bytes::split_once;
use crate::fault::Fault;
use crate::keyword::Keyword;

#[derive(Clone, Copy, Debug, PartialEq, Eq)]
pub enum Line<'a> {
    Skipped, // blank, or a comment
    Text(&'a [u8]), // with escapes
    Rules(Option<&'a [u8]>), // what stands behind the space after the word, if there is one
}

fn is_space(b: u8) -> bool
    ensures { result ≡ is_space b }
{
    matches!(b, b' ' | b'\t')
}

fn is_blank(line: &[u8]) -> bool
    ensures { result ≡ is_blank line.now }
{
    line.iter().all(|b| is_space(*b))
}

fn is_comment(line: &[u8]) -> bool
    ensures { result ≡ is_comment line.now }
{
    matches!(line, [b'#', ..])
}

impl<'a> Line<'a> {
    pub fn read(line: &'a [u8]) -> Result<Line<'a>, Fault>
        ensures { meaning result ≡ says line.now }
    {
        if is_blank(line) || is_comment(line) {
            return Ok(Line::Skipped);
        }
        let (word, rest) = split_once(line, b' ');
        match Keyword::try_from(word)? {
            Keyword::Text => Ok(Line::Text(rest.unwrap_or(&[]))),
            Keyword::Rules => Ok(Line::Rules(rest)),
            keyword => Err(Fault::NotYet(keyword)),
        }
    }
}
