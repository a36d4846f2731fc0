// The first word of a line, which says what the line is.
ghost use Rattle.std.specs.Prelude.{◌≡◌, Some};
ghost use Rattle.replay.specs.Keywords.{name_of, keyword_in, GivesKeyword};

use crate::fault::Fault;
use std::fmt;

#[derive(Clone, Copy, Debug, PartialEq, Eq)]
pub enum Keyword {
    // head lines
    Text,
    Rules,
    Strategy,
    Recovering,
    Listener,
    Room,
    // calls
    Enter,
    Recursion,
    State,
    Alternative,
    Extend,
    GiveUp,
    Match,
    Any,
    Consume,
    Leave,
    Unroll,
    // questions
    Passes,
    Child,
    Parent,
    Nth,
    Leaf,
    TextOf,
    Print,
    Walk,
}

// The first of some keywords that a word is.
fn find(keywords: &[Keyword], word: &[u8]) -> Option<Keyword>
    ensures { result ≡ keyword_in keywords.now word.now }
{
    keywords
        .iter()
        .find(|k| k.name().as_bytes() == word)
        .copied()
}

impl Keyword {
    const ALL: [Keyword; 25] = [
        Keyword::Text,
        Keyword::Rules,
        Keyword::Strategy,
        Keyword::Recovering,
        Keyword::Listener,
        Keyword::Room,
        Keyword::Enter,
        Keyword::Recursion,
        Keyword::State,
        Keyword::Alternative,
        Keyword::Extend,
        Keyword::GiveUp,
        Keyword::Match,
        Keyword::Any,
        Keyword::Consume,
        Keyword::Leave,
        Keyword::Unroll,
        Keyword::Passes,
        Keyword::Child,
        Keyword::Parent,
        Keyword::Nth,
        Keyword::Leaf,
        Keyword::TextOf,
        Keyword::Print,
        Keyword::Walk,
    ];

    // The word itself.
    pub fn name(&self) -> &'static str
        ensures { result.now ≡ name_of self.now }
    {
        match self {
            Keyword::Text => "text",
            Keyword::Rules => "rules",
            Keyword::Strategy => "strategy",
            Keyword::Recovering => "recovering",
            Keyword::Listener => "listener",
            Keyword::Room => "room",
            Keyword::Enter => "enter",
            Keyword::Recursion => "recursion",
            Keyword::State => "state",
            Keyword::Alternative => "alternative",
            Keyword::Extend => "extend",
            Keyword::GiveUp => "give-up",
            Keyword::Match => "match",
            Keyword::Any => "any",
            Keyword::Consume => "consume",
            Keyword::Leave => "leave",
            Keyword::Unroll => "unroll",
            Keyword::Passes => "passes",
            Keyword::Child => "child",
            Keyword::Parent => "parent",
            Keyword::Nth => "nth",
            Keyword::Leaf => "leaf",
            Keyword::TextOf => "text-of",
            Keyword::Print => "print",
            Keyword::Walk => "walk",
        }
    }
}

// The keyword that a word is, or the fault that it is none.
impl TryFrom<&[u8]> for Keyword {
    type Error = Fault;

    ghost try_from_gives = { λ word r. GivesKeyword word.now r };

    fn try_from(word: &[u8]) -> Result<Keyword, Fault> {
        find(&Self::ALL, word).ok_or(Fault::UnknownWord)
    }
}

impl fmt::Display for Keyword {
    ghost output = { λ k. Some (name_of k) };

    fn fmt<W: fmt::Write>(&self, f: &mut fmt::Formatter<W>) -> fmt::Result {
        f.write_str(self.name())
    }
}
