use input::channel_filter::ChannelFilter;
use input::scanner::Scanner;
use input::text::{Text, TextTooLong};
use input::token::Token;
use input::token_stream::TokenStream;
use std::process::Abort;
use std::test::Fail;

// The first token of a text, and the type of the one after it.
fn first(bytes: &[u8]) -> Result<(Token, i32), TextTooLong> {
    let tokens = Scanner::new(Text::new(bytes)?);
    Ok((tokens.current(), tokens.second().ttype))
}

// That a text is one token of this type and channel.
fn check_one(rt: &impl Abort, bytes: &[u8], ttype: i32, channel: u8) -> Result<(), Fail> {
    let (token, after) = first(bytes)?;
    assert_eq!(rt; token.ttype, ttype);
    assert_eq!(rt; token.channel, channel);
    assert_eq!(rt; after, Token::END);
    Ok(())
}

// That a stream is at its end, stays there, and had no token before it.
fn check_at_end<S: TokenStream>(rt: &impl Abort, tokens: &mut S, end: Token) {
    assert_eq!(rt; tokens.current(), end);
    assert_eq!(rt; tokens.second(), end);
    tokens.consume();
    assert_eq!(rt; tokens.current(), end);
    assert!(rt; tokens.previous().is_none());
}

// Fills a text with a piece, again and again.
fn repeat(text: &mut [u8], piece: &[u8]) {
    for (b, of_piece) in text.iter_mut().zip(piece.iter().copied().cycle()) {
        *b = of_piece;
    }
}

#[test]
fn empty_text_is_its_end(rt: HostRuntime) -> Result<(), Fail> {
    let mut tokens = Scanner::new(Text::new(b"")?);
    let end = Token {
        ttype: -1,
        channel: 0,
        index: 0,
        offset: 0,
        len: 0,
    };
    check_at_end(&rt, &mut tokens, end);
    Ok(())
}

#[test]
fn longest_text_is_taken(rt: HostRuntime) -> Result<(), Fail> {
    let text = [b'a'; 65536];
    let (token, after) = first(&text)?;
    assert_eq!(rt; token.len, 65536);
    assert_eq!(rt; after, -1);
    Ok(())
}

#[test]
fn longer_text_is_refused(rt: HostRuntime) -> Result<(), Fail> {
    let text = [b' '; 65537];
    let Err(refusal) = Text::new(&text) else {
        return Err(Fail::new("taken"));
    };
    assert_eq!(rt; refusal.number(), 3);
    Ok(())
}

#[test]
fn one_byte_of_each_kind(rt: HostRuntime) -> Result<(), Fail> {
    check_one(&rt, b"a", 1, 0)?;
    check_one(&rt, b"Z", 1, 0)?;
    check_one(&rt, b"_", 1, 0)?;
    check_one(&rt, b"0", 2, 0)?;
    check_one(&rt, b"9", 2, 0)?;
    check_one(&rt, b" ", 25, 1)?;
    check_one(&rt, b"\r", 25, 1)?;
    check_one(&rt, b":", 0, 0)?;
    check_one(&rt, b"#", 0, 0)?;
    check_one(&rt, b"\x80", 0, 0)?;
    check_one(&rt, b"\xff", 0, 0)
}

#[test]
fn signs_of_one_byte(rt: HostRuntime) -> Result<(), Fail> {
    let signs = b";()+-*/=<>&,";
    let types = [4, 5, 6, 7, 8, 9, 10, 12, 14, 16, 18, 19];
    assert_eq!(rt; signs.len(), types.len());
    for (sign, ttype) in signs.iter().zip(&types) {
        check_one(&rt, &[*sign], *ttype, 0)?;
    }
    Ok(())
}

#[test]
fn blanks_alone_are_nothing_to_a_parser(rt: HostRuntime) -> Result<(), Fail> {
    let mut tokens = ChannelFilter::new(Scanner::new(Text::new(b" \t\r\n ")?));
    let end = Token {
        ttype: -1,
        channel: 0,
        index: 1,
        offset: 5,
        len: 0,
    };
    check_at_end(&rt, &mut tokens, end);
    Ok(())
}

#[test]
fn filter_looks_back_past_blanks(rt: HostRuntime) -> Result<(), Fail> {
    let mut tokens = ChannelFilter::new(Scanner::new(Text::new(b"a (* b *) ;")?));
    assert!(rt; tokens.previous().is_none());
    tokens.consume();
    assert_eq!(rt; tokens.current().ttype, 4);
    assert!(rt; tokens.second().is_end());
    tokens.consume();
    tokens.consume();
    let Some(last) = tokens.previous() else {
        return Err(Fail::new("nothing is previous"));
    };
    assert_eq!(rt;
        last,
        Token {
            ttype: 4,
            channel: 0,
            index: 4,
            offset: 10,
            len: 1,
        }
    );
    Ok(())
}

#[test]
fn ten_thousand_comments(rt: HostRuntime) -> Result<(), Fail> {
    let mut text = [0; 40000];
    repeat(&mut text, b"(**)");
    let mut tokens = Scanner::new(Text::new(&text)?);
    for _ in 0..9999 {
        tokens.consume();
    }
    assert_eq!(rt;
        tokens.current(),
        Token {
            ttype: 26,
            channel: 1,
            index: 9999,
            offset: 39996,
            len: 4,
        }
    );
    assert!(rt; tokens.second().is_end());
    Ok(())
}

#[test]
fn ten_thousand_openings(rt: HostRuntime) -> Result<(), Fail> {
    let mut text = [0; 20000];
    repeat(&mut text, b"(*");
    let (token, after) = first(&text)?;
    assert_eq!(rt;
        token,
        Token {
            ttype: 0,
            channel: 0,
            index: 0,
            offset: 0,
            len: 20000,
        }
    );
    assert_eq!(rt; after, -1);
    Ok(())
}

#[derive(Drop)]
struct Job<'a> {
    text: Text<'a>,
    tokens: Scanner<'a>,
}

// A text and a scanner may be read in an element of a slice.
fn first_job(jobs: &[Job]) -> Option<(usize, Token)> {
    if jobs.is_empty() {
        return None;
    }
    Some((jobs[0].text.bytes().len(), jobs[0].tokens.current()))
}

// A scanner may be lent as any stream.
fn second_of(stream: &dyn TokenStream) -> Token {
    stream.second()
}

#[test]
fn a_scanner_in_a_slice(rt: HostRuntime) -> Result<(), Fail> {
    let text = Text::new(b"a;")?;
    let jobs = [Job {
        text,
        tokens: Scanner::new(text),
    }];
    let (token, after) = first(b"a;")?;
    assert_eq!(rt; first_job(&jobs), Some((2, token)));
    assert_eq!(rt; second_of(&Scanner::new(text)).ttype, after);
    assert_eq!(rt; after, 4);
    Ok(())
}
