// Reads a recording on standard input, and prints the tokens of its text.
#![tactic(auto)]

ghost use Rattle.std.specs.Prelude.{◌≡◌, IfOk, IfErr};
ghost use Rattle.replay.specs.declared.Failure.TheVariants.{Memory, Io};
ghost use Rattle.replay.specs.declared.OutOfMemory.TheVariants.{ForReport};
ghost use Rattle.replay.specs.Answers.{answer, ShortAt, Answers};
ghost use Rattle.replay.specs.Recordings.{recorded};

use crate::fault::{NoMemory, ReadError};
use crate::recording::Recording;
use crate::report::Report;
use std::alloc::{AllocError, Global};
use std::io;
use std::io::Read;

mod bytes;
mod fault;
mod keyword;
mod line;
mod recording;
mod report;

// Why the program could not do its work. A wrong line is answered, and is no such failure.
#[derive(Debug, Drop)]
enum Failure {
    Memory,
    Io(io::Error),
}

impl From<AllocError> for Failure {
    ghost from_gives = { λ _ r. r ≡ Memory };

    fn from(_e: AllocError) -> Failure {
        Failure::Memory
    }
}

impl From<io::Error> for Failure {
    ghost from_gives = { λ e r. r ≡ Io e };

    fn from(e: io::Error) -> Failure {
        Failure::Io(e)
    }
}

// Where memory was short: at a line, or for the report.
#[derive(Debug, Drop)]
enum OutOfMemory {
    AtLine(NoMemory),
    ForReport(AllocError),
}

impl From<AllocError> for OutOfMemory {
    ghost from_gives = { λ e r. r ≡ ForReport e };

    fn from(e: AllocError) -> OutOfMemory {
        OutOfMemory::ForReport(e)
    }
}

// The answer to an input, or where memory was short.
fn answer(heap: Global, input: &[u8]) -> Result<Report, OutOfMemory>
    ensures report { IfOk result (λ report. report ≡ answer (recorded input.now)) }
    ensures short { IfErr result (ShortAt input.now) }
{
    let mut report = Report::new(heap);
    match Recording::read(heap, input) {
        Ok(recording) => report.recording(&recording)?,
        Err(ReadError::BadLine(bad)) => report.line(bad)?,
        Err(ReadError::NoMemory(no_memory)) => return Err(OutOfMemory::AtLine(no_memory)),
    }
    Ok(report)
}

// All that is printed for an input. A line that was not read for want of memory is reported like a wrong one, if there is memory for that.
fn replay(heap: Global, input: &[u8]) -> Result<Report, AllocError>
    ensures { IfOk result (λ report. Answers input.now report) }
{
    match answer(heap, input) {
        Ok(report) => Ok(report),
        Err(OutOfMemory::AtLine(no_memory)) => {
            let mut report = Report::new(heap);
            report.line(no_memory)?;
            Ok(report)
        }
        Err(OutOfMemory::ForReport(e)) => Err(e),
    }
}

fn main(rt: HostRuntime) -> Result<(), Failure> {
    let mut input = Vec::new(rt.alloc());
    rt.stdin().read_to_end(&mut input)?;
    let report = replay(rt.alloc(), input.as_slice())?;
    rt.write_all(report.bytes())?;
    Ok(())
}
