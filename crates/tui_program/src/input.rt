//! Inputs: a source that is read to its end.

ghost use Rattle.tui_io.specs.Causes.{Observed};
ghost use Rattle.tui_program.specs.Input.{Reads};
ghost use Rattle.tui_program.specs.Transcript.{transcript_of};

use crate::stop::{Outcome, Stop};
use std::alloc::Global;
use tui_io::{ReadEnd, Source, read_all};

/// Reads a source to its end. Fails with `TooLong` if it has more than 1,048,576 bytes, and with `ReadFault` if a read
/// fails.
pub fn read_input<R, S: Source>(alloc: Global, source: &mut S) -> Outcome<Vec<u8>, R>
    ensures { (sink sink_then : Observed) → Reads (transcript_of (S.observed source.old) (S.observed source.new) sink sink_then) result }
{
    match read_all(alloc, source) {
        Ok(bytes) => Ok(bytes),
        Err(ReadEnd::TooLong) => Err(Stop::TooLong),
        Err(ReadEnd::ReadFault) => Err(Stop::ReadFault),
        Err(ReadEnd::NoMemory) => Err(Stop::NoMemory),
    }
}
