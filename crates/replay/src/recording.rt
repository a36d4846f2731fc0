// A recording: a text, and the names of its rules.
ghost use Rattle.std.specs.Prelude.{◌≡◌, IfOk, vec_items};
ghost use Rattle.std.specs.Option.{option_map};
ghost use Rattle.replay.specs.Faults.{Gives};
ghost use Rattle.replay.specs.Lines.{says};
ghost use Rattle.replay.specs.Recordings.{bytes_in, names, continued, with_line, nothing_said, IsReadAs, Recorded};

use crate::bytes::{split_once, unescape};
use crate::fault::{Fault, LineError, ReadError};
use crate::line::Line;
use std::alloc::{AllocError, Global};
use std::marker::Model;

#[derive(Drop)]
pub struct Recording<'a> {
    pub text: Vec<u8>,
    pub rules: Vec<&'a [u8]>, // their names, from rule 0
}

// What the lines so far say.
#[derive(Drop)]
struct Head<'a> {
    text: Option<Vec<u8>>, // none before the first text line
    rules: Vec<&'a [u8]>,
}

impl<'a> Model for Head<'a> {
    ghost use Rattle.std.specs.Prelude.{vec_items};
    ghost use Rattle.std.specs.Option.{option_map};
    ghost use Rattle.replay.specs.Recordings.{Said, bytes_in};

    ghost Value = { Said };

    ghost view = { λ h. record { text = option_map vec_items h.text; rules = bytes_in (vec_items h.rules) } };
}

// The text after one more line of it.
fn continue_text(text: Option<Vec<u8>>, line: Vec<u8>) -> Result<Vec<u8>, AllocError>
    ensures { IfOk result (λ v. v.items ≡ continued (option_map vec_items text) line.items) }
{
    let Some(mut text) = text else {
        return Ok(line);
    };
    text.push(b'\n')?;
    text.extend_from_slice(line.as_slice())?;
    Ok(text)
}

// The names of a `rules` line, of which none may be empty.
fn read_names<'a>(heap: Global, bytes: Option<&'a [u8]>) -> Result<Vec<&'a [u8]>, LineError>
    ensures { Gives (λ v. bytes_in v.items) (names (option_map (λ x. x.now) bytes.entry)) result }
{
    let mut read = Vec::new(heap);
    let Some(bytes) = bytes else {
        return Ok(read);
    };
    for name in bytes.split(|b| *b == b' ') {
        if name.is_empty() {
            return Err(Fault::EmptyName.into());
        }
        read.push(name)?;
    }
    Ok(read)
}

impl<'a> Head<'a> {
    fn new(heap: Global) -> Head<'a>
        ensures { result ≡ nothing_said }
    {
        Head {
            text: None,
            rules: Vec::new(heap),
        }
    }

    // One more line of it; after an error the head says nothing of use.
    // In place, since passing the head through a `Result` costs each line time.
    fn add_line(&mut self, line: &'a [u8]) -> Result<(), LineError>
        ensures { Gives (λ _. self.new) (with_line self.old (says line.now)) result }
    {
        let heap = *self.rules.allocator();
        match Line::read(line)? {
            Line::Skipped => {}
            Line::Text(escaped) => {
                let more = unescape(heap, escaped)?;
                self.text = Some(continue_text(self.text.take(), more)?);
            }
            Line::Rules(names) => self.rules = read_names(heap, names)?,
        }
        Ok(())
    }

    // Without a text line the text is empty.
    fn recording(self) -> Recording<'a>
        ensures { IsReadAs self.entry result }
    {
        let Head { text, rules } = self;
        let heap = *rules.allocator();
        Recording {
            text: text.unwrap_or(Vec::new(heap)),
            rules,
        }
    }
}

impl<'a> Recording<'a> {
    pub fn read(heap: Global, input: &'a [u8]) -> Result<Recording<'a>, ReadError>
        ensures { Recorded input.now result }
    {
        let mut head = Head::new(heap);
        let mut rest = input;
        let mut number: usize = 0;
        // Not by `split`, with which empty lines take up to 1.9 times as long.
        while !rest.is_empty() {
            number += 1;
            let (line, after) = split_once(rest, b'\n');
            head.add_line(line).map_err(|e| e.at(number))?;
            rest = after.unwrap_or(&[]);
        }
        Ok(head.recording())
    }
}
