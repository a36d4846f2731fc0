// The scanner of Structured Text: the tokens of a text, in the order in which they stand there.
ghost use Rattle.std.specs.Prelude.{◌≡◌, ◌+◌, ◌≤◌, List, length, pos};
ghost use Rattle.input.specs.declared.token.Token.{Token};
ghost use Rattle.input.specs.Law.{Scans};
ghost use Rattle.input.specs.Scanned.{scanner};
ghost use Rattle.input.specs.Text.{bytes_of};

use crate::channel::Channel;
use crate::lexeme::Lexeme;
use crate::lookahead::Lookahead;
use crate::text::Text;
use crate::token::Token;
use crate::token_source::TokenSource;
use crate::token_stream::TokenStream;

// The part of a text that is still to be scanned.
#[derive(Drop)]
pub struct Cursor<'a> {
    rest: &'a [u8],
    offset: u32, // where the rest begins in the text
    index: u32, // the index of the token that begins there
    ghost short: { offset + length rest.now ≤ 65536 },
    ghost counted: { index ≤ offset },
}

// A stream over the bytes of a text.
#[derive(Drop)]
pub struct Scanner<'a> {
    tokens: Lookahead<Cursor<'a>>,
}

impl<'a> Cursor<'a> {
    // A token that begins where the rest does.
    fn token(&self, ttype: i32, channel: u8, len: u32) -> Token
        ensures { result ≡ record { ttype = ttype; channel = channel; index = pos self.now.index; offset = self.now.offset; len = len } }
    {
        Token {
            ttype,
            channel,
            index: self.index as i32,
            offset: self.offset,
            len,
        }
    }
}

impl<'a> TokenSource for Cursor<'a> {
    ghost use Rattle.input.specs.Scanner.{still_to_scan};
    ghost use Rattle.input.specs.ScannerFormed.{still_formed};

    ghost supply = { still_to_scan };

    ghost formed = { still_formed };

    #[tactic(auto, using(crate::proofs::Scanning::steps))]
    fn next_token(&mut self) -> Token {
        let Some(lexeme) = Lexeme::first(self.rest) else {
            return self.token(Token::END, Channel::Default.into(), 0);
        };
        let len = lexeme.bytes().len();
        let token = self.token(lexeme.ttype().into(), lexeme.channel().into(), len as u32);
        self.rest = &self.rest[len..];
        self.offset += len as u32;
        self.index += 1;
        token
    }
}

impl<'a> Scanner<'a> {
    ghost use Rattle.input.specs.Scanner.{scanner_stream};

    #[tactic(auto, using(crate::proofs::Only::only))]
    pub fn new(text: Text<'a>) -> Scanner<'a>
        ensures stream { scanner_stream result ≡ scanner (bytes_of text.entry) }
        ensures lawful { Scans (bytes_of text.entry) (scanner_stream result).ahead }
        ensures only { (ts : List Token) → Scans (bytes_of text.entry) ts → ts ≡ (scanner_stream result).ahead }
    {
        Scanner {
            tokens: Lookahead::open(Cursor {
                rest: text.bytes(),
                offset: 0,
                index: 0,
            }),
        }
    }
}

impl<'a> TokenStream for Scanner<'a> {
    ghost use Rattle.input.specs.Scanner.{scanner_stream};
    ghost use Rattle.input.specs.ScannerFormed.{scanner_formed};

    ghost meaning = { scanner_stream };

    ghost formed = { scanner_formed };

    fn current(&self) -> Token {
        self.tokens.current()
    }

    fn second(&self) -> Token {
        self.tokens.second()
    }

    fn previous(&self) -> Option<Token> {
        self.tokens.previous()
    }

    fn consume(&mut self) {
        self.tokens.consume()
    }
}
