// Why a line of a recording was not read, and why the recording was not.
ghost use Rattle.std.specs.Prelude.{◌≡◌, Some};
ghost use Rattle.replay.specs.declared.fault.LineError.TheVariants.{Wrong, Memory};
ghost use Rattle.replay.specs.Faults.{message, bad_line, short_at, at_line};

use crate::keyword::Keyword;
use std::alloc::{AllocError, AllocFailed};
use std::fmt;

// What is wrong with a line.
#[derive(Clone, Copy, Debug, PartialEq, Eq)]
pub enum Fault {
    UnknownWord,
    NotYet(Keyword),
    EmptyName,
    UnknownEscape,
}

impl fmt::Display for Fault {
    ghost output = { λ f. Some (message f) };

    fn fmt<W: fmt::Write>(&self, f: &mut fmt::Formatter<W>) -> fmt::Result {
        match self {
            Fault::UnknownWord => f.write_str("its first word is unknown"),
            Fault::NotYet(keyword) => write!(f, "\"{keyword}\" is not read yet"),
            Fault::EmptyName => f.write_str("rule names are separated by one space"),
            Fault::UnknownEscape => f.write_str("a \"\\\" is not followed by n, t, r or \"\\\""),
        }
    }
}

// Why a line was not read: it is wrong, or memory was short.
#[derive(Clone, Copy, Debug, PartialEq, Eq)]
pub enum LineError {
    Wrong(Fault),
    Memory,
}

impl From<Fault> for LineError {
    ghost from_gives = { λ fault r. r ≡ Wrong fault };

    fn from(fault: Fault) -> LineError {
        LineError::Wrong(fault)
    }
}

// Two impls for want of memory, since the library has two errors for it.
impl From<AllocError> for LineError {
    ghost from_gives = { λ _ r. r ≡ Memory };

    fn from(_e: AllocError) -> LineError {
        LineError::Memory
    }
}

impl<T: Drop> From<AllocFailed<T>> for LineError {
    ghost from_gives = { λ _ r. r ≡ Memory };

    fn from(_e: AllocFailed<T>) -> LineError {
        LineError::Memory
    }
}

impl LineError {
    // The same with the line's number, from 1.
    pub fn at(self, line: usize) -> ReadError
        ensures { result ≡ at_line line self }
    {
        match self {
            LineError::Wrong(fault) => ReadError::BadLine(BadLine {
                number: line,
                fault,
            }),
            LineError::Memory => ReadError::NoMemory(NoMemory { line }),
        }
    }
}

// A fault, with the line's number, from 1.
#[derive(Clone, Copy, Debug, PartialEq, Eq)]
pub struct BadLine {
    pub number: usize,
    pub fault: Fault,
}

impl fmt::Display for BadLine {
    ghost output = { λ b. Some (bad_line b) };

    fn fmt<W: fmt::Write>(&self, f: &mut fmt::Formatter<W>) -> fmt::Result {
        let BadLine { number, fault } = *self;
        write!(f, "line {number}: {fault}")
    }
}

// Memory was short while the line with this number, from 1, was read. Apart from `BadLine`, since a wrong line is an answer, and this is none.
#[derive(Clone, Copy, Debug, PartialEq, Eq)]
pub struct NoMemory {
    pub line: usize,
}

impl fmt::Display for NoMemory {
    ghost output = { λ n. Some (short_at n) };

    fn fmt<W: fmt::Write>(&self, f: &mut fmt::Formatter<W>) -> fmt::Result {
        let line = self.line;
        write!(f, "line {line}: there is no memory left")
    }
}

// Why a recording was not read: a line is wrong, or memory was short at one. Apart from `LineError`, since what reads a line does not know its number.
#[derive(Clone, Copy, Debug, PartialEq, Eq)]
pub enum ReadError {
    BadLine(BadLine),
    NoMemory(NoMemory),
}
