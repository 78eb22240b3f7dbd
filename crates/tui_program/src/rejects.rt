//! Programs that reject inputs.

ghost use Rattle.std.specs.Prelude.{ℕ, List};
ghost use Rattle.tui_io.specs.Causes.{Writes};
ghost use Rattle.tui_program.specs.Stops.{WritesLine, line_of};

use crate::stop::Stop;
use tui_io::{Sink, WriteFault, write_all};

/// A program that may reject the value of its input.
pub trait Rejects {
    /// What it rejects a value with.
    type Refusal: Copy;

    // The line that says so.
    ghost line: { Self.Refusal → List ℕ };

    /// Writes the line that rejects a value. On `WriteFault` the sink has taken the first bytes, but not all of them.
    /// Does not allocate.
    fn reject<K: Sink>(refusal: Self::Refusal, sink: &mut K) -> Result<(), WriteFault>
        ensures { Writes (K.observed sink.old) (K.observed sink.new) result (line refusal) };
}

/// Writes the line that says why an input is rejected, without allocating. Writes nothing for a stop that has no line.
/// Returns how the run ends.
pub fn report_stop<P: Rejects, K: Sink>(stop: Stop<P::Refusal>, sink: &mut K) -> Stop<P::Refusal>
    ensures { WritesLine (line_of P.line stop) stop (K.observed sink.old) (K.observed sink.new) result }
{
    match write_line::<P, K>(stop, sink) {
        Ok(()) => stop,
        Err(WriteFault) => Stop::WriteFault,
    }
}

fn write_line<P: Rejects, K: Sink>(stop: Stop<P::Refusal>, sink: &mut K) -> Result<(), WriteFault>
    ensures { Writes (K.observed sink.old) (K.observed sink.new) result (line_of P.line stop) }
{
    match stop {
        Stop::Usage => write_all(sink, b"refused: usage\n"),
        Stop::TooLong => write_all(sink, b"refused: too long\n"),
        Stop::NotJson => write_all(sink, b"refused: not JSON\n"),
        Stop::NotText => write_all(sink, b"refused: not UTF-8\n"),
        Stop::Rejected(refusal) => P::reject(refusal, sink),
        Stop::ReadFault | Stop::WriteFault | Stop::NoMemory | Stop::ManyReads => Ok(()),
    }
}
