// What stands at the front of a text.
ghost use Rattle.std.specs.Prelude.{◌≡◌, ℕ, ◌≤◌, ◌<◌, true, false, length, take, slice_index, IfSome};
ghost use Rattle.std.specs.Option.{option_map};
ghost use Rattle.std.specs.Str.{bytes_eq};
ghost use Rattle.input.specs.Bytes.{begins_name, is_in_name, is_blank, capitals};
ghost use Rattle.input.specs.Channels.{channel_number};
ghost use Rattle.input.specs.TokenTypes.{number_of};
ghost use Rattle.input.specs.Lexemes.{signs, words, type_in, longest_in, closing, part_of, first_part, comment_part, sign_part, cut, sign_or_byte, type_of, channel_of};

use crate::channel::Channel;
use crate::token_type::TokenType;

// A lexeme, with its bytes as a part of the text. An enum whose cases borrow, by a rule of the project.
#[derive(Clone, Copy, Drop)]
pub enum Lexeme<'a> {
    Name(&'a [u8]),
    Number(&'a [u8]),
    Sign(&'a [u8]),
    Blank(&'a [u8]),
    Comment(&'a [u8]),
    Unknown(&'a [u8]),
}

fn begins_name(b: u8) -> bool
    ensures { result ≡ begins_name b }
{
    b.is_ascii_alphabetic() || b == b'_'
}

fn is_in_name(b: u8) -> bool
    ensures { result ≡ is_in_name b }
{
    begins_name(b) || b.is_ascii_digit()
}

fn is_blank(b: u8) -> bool
    ensures { result ≡ is_blank b }
{
    matches!(b, b' ' | b'\t' | b'\n' | b'\r')
}

// The bytes at the front that pass the test.
fn run<'a, P: Fn(u8) -> bool>(text: &'a [u8], passes: P) -> &'a [u8]
    requires { P.IsAlwaysCallable passes }
    ensures front { (length result.now ≤ length text.now) × (result.now ≡ take (length result.now) text.now) }
    ensures passing { (i : ℕ) → i < length result.now → P.post passes (slice_index text.now i) true }
    ensures stops { length result.now < length text.now → P.post passes (slice_index text.now (length result.now)) false }
{
    let n = text.iter().take_while(|b| passes(**b)).count();
    &text[..n]
}

// How many bytes go up to the first `*)` and with it.
fn find_closing(text: &[u8]) -> Option<usize>
    ensures found { result ≡ closing text.now }
    ensures within { IfSome result (λ n. n ≤ length text.now) }
{
    text.windows(2)
        .position(|w| matches!(w, [b'*', b')']))
        .map(|n| n + 2)
}

// The longest sign at the front, if one fits.
fn sign<'a>(text: &'a [u8]) -> Option<Lexeme<'a>>
    ensures { option_map part_of result ≡ sign_part text.now }
{
    let len = match text {
        [b':', b'=', ..] | [b'*', b'*', ..] | [b'<', b'>' | b'=', ..] | [b'>', b'=', ..] => 2,
        [
            b';' | b'(' | b')' | b'+' | b'-' | b'*' | b'/' | b'=' | b'<' | b'>' | b'&' | b',',
            ..
        ] => 1,
        _ => return None,
    };
    Some(Lexeme::Sign(&text[..len]))
}

// A `match` of its own beside the one in `sign`: one table for both would need a search by its front and a search by all its bytes, no less code than this.
fn sign_type(sign: &[u8]) -> TokenType
    ensures { number_of result ≡ type_in signs sign.now 0 }
{
    match sign {
        b":=" => TokenType::Assign,
        b";" => TokenType::Semicolon,
        b"(" => TokenType::OpenParen,
        b")" => TokenType::CloseParen,
        b"+" => TokenType::Plus,
        b"-" => TokenType::Minus,
        b"*" => TokenType::Star,
        b"/" => TokenType::Slash,
        b"**" => TokenType::Power,
        b"=" => TokenType::Equal,
        b"<>" => TokenType::NotEqual,
        b"<" => TokenType::Less,
        b"<=" => TokenType::LessOrEqual,
        b">" => TokenType::Greater,
        b">=" => TokenType::GreaterOrEqual,
        b"&" => TokenType::Ampersand,
        b"," => TokenType::Comma,
        _ => TokenType::Unknown,
    }
}

// Whether a name is the word, in either case.
fn is_word(name: &[u8], word: &[u8]) -> bool
    requires { capitals word.now ≡ word.now }
    ensures { result ≡ bytes_eq word.now (capitals name.now) }
{
    name.eq_ignore_ascii_case(word)
}

// A word has a type of its own, and any other name that of names.
fn name_type(name: &[u8]) -> TokenType
    ensures { number_of result ≡ type_in words (capitals name.now) 1 }
{
    if is_word(name, b"AND") {
        TokenType::And
    } else if is_word(name, b"OR") {
        TokenType::Or
    } else if is_word(name, b"XOR") {
        TokenType::Xor
    } else if is_word(name, b"NOT") {
        TokenType::Not
    } else if is_word(name, b"MOD") {
        TokenType::Mod
    } else {
        TokenType::Name
    }
}

// A comment, or a `(*` that is never closed, which goes to the end of the text; none where the text does not begin with `(*`.
#[tactic(auto, using(crate::proofs::Front::comment_front))]
fn comment<'a>(text: &'a [u8]) -> Option<Lexeme<'a>>
    ensures { option_map part_of result ≡ comment_part text.now }
{
    let [b'(', b'*', rest @ ..] = text else {
        return None;
    };
    match find_closing(rest) {
        Some(n) => Some(Lexeme::Comment(&text[..n + 2])),
        None => Some(Lexeme::Unknown(text)),
    }
}

// The longest sign, or else one unknown byte.
fn sign_or_byte<'a>(text: &'a [u8]) -> Lexeme<'a>
    requires { 1 ≤ length text.now }
    ensures { part_of result ≡ cut (sign_or_byte (longest_in signs text.now)) text.now }
{
    sign(text).unwrap_or(Lexeme::Unknown(&text[..1]))
}

impl<'a> Lexeme<'a> {
    // The lexeme at the front of a text, if the text has a byte at all.
    #[tactic(auto, using(crate::proofs::Front::sign_front))]
    pub fn first(text: &'a [u8]) -> Option<Lexeme<'a>>
        ensures { option_map part_of result ≡ first_part text.now }
    {
        let [b, ..] = text else {
            return None;
        };
        if begins_name(*b) {
            return Some(Lexeme::Name(run(text, is_in_name)));
        }
        if b.is_ascii_digit() {
            return Some(Lexeme::Number(run(text, |b| b.is_ascii_digit())));
        }
        if is_blank(*b) {
            return Some(Lexeme::Blank(run(text, is_blank)));
        }
        comment(text).or_else(|| Some(sign_or_byte(text)))
    }

    pub fn bytes(&self) -> &'a [u8]
        ensures { result.now ≡ (part_of self.now).bytes }
    {
        match self {
            Lexeme::Name(bytes)
            | Lexeme::Number(bytes)
            | Lexeme::Sign(bytes)
            | Lexeme::Blank(bytes)
            | Lexeme::Unknown(bytes)
            | Lexeme::Comment(bytes) => *bytes,
        }
    }

    pub fn ttype(&self) -> TokenType
        ensures { number_of result ≡ type_of (part_of self.now).kind (part_of self.now).bytes }
    {
        match self {
            Lexeme::Name(bytes) => name_type(*bytes),
            Lexeme::Number(_) => TokenType::Number,
            Lexeme::Sign(bytes) => sign_type(*bytes),
            Lexeme::Blank(_) => TokenType::Blank,
            Lexeme::Comment(_) => TokenType::Comment,
            Lexeme::Unknown(_) => TokenType::Unknown,
        }
    }

    // A parser does not see blanks and comments.
    pub fn channel(&self) -> Channel
        ensures { channel_number result ≡ channel_of (part_of self.now).kind }
    {
        match self {
            Lexeme::Blank(_) | Lexeme::Comment(_) => Channel::Hidden,
            _ => Channel::Default,
        }
    }
}
