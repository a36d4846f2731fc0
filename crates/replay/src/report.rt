// What the program prints: built in memory, then written by one call.
ghost use Rattle.std.specs.Prelude.{◌≡◌, [], ◌++◌, IfOk, IfSome, Some, codes, OnOk};
ghost use Rattle.std.specs.Iterator.{YieldsFirst};
ghost use Rattle.input.specs.Law.{bytes_at};
ghost use Rattle.input.specs.Scanned.{scanned};
ghost use Rattle.input.specs.Scanner.{scanner_stream};
ghost use Rattle.input.specs.Text.{bytes_of};
ghost use Rattle.replay.specs.Printed.{line_of, token_line, Few, counted, tally_of, tally_line, listing, tokens_printed, text_printed};

use crate::bytes::escape;
use crate::recording::Recording;
use input::channel::Channel;
use input::scanner::Scanner;
use input::text::{Text, TextTooLong};
use input::token::Token;
use input::token_stream::TokenStream;
use input::token_type::TokenType;
use std::alloc::{AllocError, Global};
use std::fmt;
use std::marker::Model;

// How many tokens there are, without the end.
#[derive(Clone, Copy, Debug, Default, PartialEq, Eq)]
struct Tally {
    visible: u32, // on channel 0
    hidden: u32,
    unknown: u32, // of type 0
}

impl Tally {
    // `Few` holds since a text has at most 65,536 tokens. As a bound in the type it would not do, since each token that is counted adds one.
    fn count(&mut self, token: &Token)
        requires { Few self.old }
        ensures { self.new ≡ counted self.old token.now }
    {
        if token.channel == Channel::Default.into() {
            self.visible += 1;
        } else {
            self.hidden += 1;
        }
        if token.ttype == TokenType::Unknown.into() {
            self.unknown += 1;
        }
    }
}

impl fmt::Display for Tally {
    ghost output = { λ t. Some (tally_line t) };

    fn fmt<W: fmt::Write>(&self, f: &mut fmt::Formatter<W>) -> fmt::Result {
        let Tally {
            visible,
            hidden,
            unknown,
        } = *self;
        let all = u64::from(visible) + u64::from(hidden);
        write!(
            f,
            "{all} tokens, {visible} on channel 0, {hidden} on channel 1, {unknown} unknown"
        )
    }
}

// Moves past the current token and gives it, or nothing at the end. As an `Iterator` it would have to say in a relation of its own that the end stays, which
// `token_lines` prints last.
fn next_token(scanner: &mut Scanner) -> Option<Token>
    ensures tokens { YieldsFirst (λ s. (scanner_stream s).ahead) scanner.old result scanner.new }
    ensures end { (scanner_stream scanner.new).end ≡ (scanner_stream scanner.old).end }
{
    let token = scanner.current();
    if token.is_end() {
        return None;
    }
    scanner.consume();
    Some(token)
}

// The part of a text that a token has, cut where the text ends.
fn part_of<'a>(text: &'a [u8], token: &Token) -> &'a [u8]
    ensures { result.now ≡ bytes_at text.now token.now }
{
    let rest = text.get(token.offset as usize..).unwrap_or(&[]);
    rest.get(..token.len as usize).unwrap_or(rest)
}

#[derive(Drop)]
pub struct Report {
    bytes: Vec<u8>,
}

// A report is the bytes that it holds.
impl Model for Report {
    ghost use Rattle.input.specs.Bytes.{Bytes};

    ghost Value = { Bytes };

    ghost view = { λ r. r.bytes.items };
}

impl Report {
    pub fn new(heap: Global) -> Report
        ensures { result ≡ [] }
    {
        Report {
            bytes: Vec::new(heap),
        }
    }

    pub fn bytes(&self) -> &[u8]
        ensures { result.now ≡ self.now }
    {
        self.bytes.as_slice()
    }

    // By a `String`: std's `Write` for a `Vec` answers with an `io::Error`, which may be another one than want of memory.
    fn print<D: fmt::Display + Drop>(&mut self, text: D) -> Result<(), AllocError>
        ensures { OnOk result (IfSome (D.output text) (λ bytes. self.new ≡ self.old ++ bytes)) }
    {
        let text = format!(in *self.bytes.allocator(); "{text}")?;
        self.bytes.extend_from_slice(text.as_bytes())
    }

    pub fn line<D: fmt::Display + Drop>(&mut self, text: D) -> Result<(), AllocError>
        ensures { OnOk result (IfSome (D.output text) (λ bytes. self.new ≡ self.old ++ line_of bytes)) }
    {
        self.print(format_args!("{text}\n"))
    }

    fn refusal(&mut self, refusal: &TextTooLong) -> Result<(), AllocError>
        ensures { OnOk result (self.new ≡ self.old ++ line_of (codes "text -> refused 3 (out of range)")) }
    {
        let number = refusal.number();
        self.line(format_args!("text -> refused {number} ({refusal})"))
    }

    fn token(&mut self, token: &Token, part: &[u8]) -> Result<(), AllocError>
        ensures { OnOk result (self.new ≡ self.old ++ token_line token.now part.now) }
    {
        let Token {
            ttype,
            channel,
            index,
            offset,
            len,
        } = *token;
        self.print(format_args!("{index} {ttype} {channel} {offset} {len} '"))?;
        escape(part, &mut self.bytes)?;
        self.line("'")
    }

    // The tokens of a text on both channels, the end last.
    fn token_lines(&mut self, text: Text) -> Result<Tally, AllocError>
        ensures lines { OnOk result (self.new ≡ self.old ++ listing (bytes_of text.entry)) }
        ensures tally { IfOk result (λ tally. tally ≡ tally_of (scanned (bytes_of text.entry))) }
    {
        let bytes = text.bytes();
        let mut scanner = Scanner::new(text);
        let mut tally = Tally::default();
        while let Some(token) = next_token(&mut scanner) {
            self.token(&token, part_of(bytes, &token))?;
            tally.count(&token);
        }
        self.token(&scanner.current(), &[])?;
        Ok(tally)
    }

    fn tokens(&mut self, text: Text) -> Result<(), AllocError>
        ensures { OnOk result (self.new ≡ self.old ++ tokens_printed (bytes_of text.entry)) }
    {
        self.line("tokens")?;
        let tally = self.token_lines(text)?;
        self.line(tally)
    }

    #[tactic(auto, using(crate::proofs::Answering::text_fits))]
    pub fn recording(&mut self, recording: &Recording) -> Result<(), AllocError>
        ensures { OnOk result (self.new ≡ self.old ++ text_printed recording.now.text.items) }
    {
        match Text::new(recording.text.as_slice()) {
            Ok(text) => self.tokens(text),
            Err(refusal) => self.refusal(&refusal),
        }
    }
}
