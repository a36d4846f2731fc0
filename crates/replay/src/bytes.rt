// Bytes: cut at a mark, read with escapes, and written with escapes.
ghost use Rattle.std.specs.Prelude.{◌≡◌, ◌<◌, ◌++◌, length, IfSome, vec_items, ok_or, OnOk};
ghost use Rattle.std.specs.Option.{option_map};
ghost use Rattle.replay.specs.declared.fault.Fault.TheVariants.{UnknownEscape};
ghost use Rattle.replay.specs.Bytes.{up_to, behind, meant_by, unescaped, ReadsFirst, escaped_byte, escaped};
ghost use Rattle.replay.specs.Faults.{Gives};

use crate::fault::{Fault, LineError};
use std::alloc::{AllocError, Global};

// The bytes up to the first mark, and those behind it if there is one.
pub fn split_once(bytes: &[u8], mark: u8) -> (&[u8], Option<&[u8]>)
    ensures front { result.0.now ≡ up_to mark bytes.now }
    ensures rest { option_map (λ x. x.now) result.1 ≡ behind mark bytes.now }
    ensures shorter { IfSome result.1 (λ x. length x.now < length bytes.now) }
{
    // Not by `position`, with which lines take up to 1.4 times as long.
    for (i, b) in bytes.iter().enumerate() {
        if *b == mark {
            return (&bytes[..i], Some(&bytes[i + 1..]));
        }
    }
    (bytes, None)
}

// The byte that a backslash with this byte behind it stands for.
fn escape_meaning(b: u8) -> Option<u8>
    ensures { result ≡ meant_by b }
{
    match b {
        b'n' => Some(b'\n'),
        b't' => Some(b'\t'),
        b'r' => Some(b'\r'),
        b'\\' => Some(b'\\'),
        _ => None,
    }
}

// The first byte that a text with escapes stands for, and what is behind it; none at the end.
fn first_byte(text: &[u8]) -> Result<Option<(u8, &[u8])>, Fault>
    ensures { ReadsFirst text.now result }
{
    let [b, after @ ..] = text else {
        return Ok(None);
    };
    if *b != b'\\' {
        return Ok(Some((*b, after)));
    }
    let [e, after @ ..] = after else {
        return Err(Fault::UnknownEscape);
    };
    let b = escape_meaning(*e).ok_or(Fault::UnknownEscape)?;
    Ok(Some((b, after)))
}

// What a text with escapes stands for.
pub fn unescape(heap: Global, text: &[u8]) -> Result<Vec<u8>, LineError>
    ensures { Gives vec_items (ok_or (unescaped text.now) UnknownEscape) result }
{
    let mut read = Vec::new(heap);
    let mut rest = text;
    while let Some((b, after)) = first_byte(rest)? {
        read.push(b)?;
        rest = after;
    }
    Ok(read)
}

fn escape_byte(b: u8, out: &mut Vec<u8>) -> Result<(), AllocError>
    ensures { OnOk result (out.new.items ≡ out.old.items ++ escaped_byte b) }
{
    match b {
        b'\t' => out.extend_from_slice(b"\\t"),
        b'\n' => out.extend_from_slice(b"\\n"),
        b'\r' => out.extend_from_slice(b"\\r"),
        _ => out.extend_from_slice(&[b]),
    }
}

// Adds the bytes, with a tab, a line feed and a carriage return as escapes.
pub fn escape(bytes: &[u8], out: &mut Vec<u8>) -> Result<(), AllocError>
    ensures { OnOk result (out.new.items ≡ out.old.items ++ escaped bytes.now) }
{
    for b in bytes {
        escape_byte(*b, out)?;
    }
    Ok(())
}
