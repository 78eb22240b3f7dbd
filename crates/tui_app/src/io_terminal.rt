//! A source and a sink as a terminal.

ghost use Rattle.std.specs.Prelude.{◌≡◌, ◌<◌, IfOk, MatchResult, None, length, take};
ghost use Rattle.std.specs.Io.{ReadsAtMost, WritesAtMost};
ghost use Rattle.std.specs.Io.KnownBytes.{ReadConsumes, WriteAppends};
ghost use Rattle.tui_app.specs.Trace.{ReadFailed, Traced, read_entry};
ghost use Rattle.tui_io.specs.Causes.{HasCause};

use crate::terminal::{READ_CAPACITY, Terminal};
use tui_io::{Failed, Sink, Source};

/// A terminal made of a source and a sink. Counts the reads and the writes that failed. Its trace is not
/// known, since neither of the two knows when the other was called.
#[derive(Drop)]
pub struct IoTerminal<R, K> {
    source: R,
    sink: K,
    io_errors: u64,
}

impl<R: Source + Drop, K: Sink + Drop> IoTerminal<R, K> {
    /// Creates a terminal. Nothing has failed yet.
    pub fn new(source: R, sink: K) -> IoTerminal<R, K>
        ensures both { (result.source ≡ source) × (result.sink ≡ sink) }
        ensures fresh { result.io_errors ≡ 0 }
    {
        IoTerminal {
            source,
            sink,
            io_errors: 0,
        }
    }
}

impl<R: Source + Drop, K: Sink + Drop> Sink for IoTerminal<R, K> {
    ghost use Rattle.std.specs.Prelude.{None};

    ghost observed = { λ p. record { bytes = None; io_errors = p.io_errors } };

    /// Writes to the sink, and fails exactly if the sink does.
    fn put(&mut self, bytes: &[u8]) -> Result<usize, Failed>
        ensures bound { WritesAtMost result bytes.now }
        ensures some { IfOk result (λ n. 0 < length bytes.now → 0 < n) }
        ensures bytes { WriteAppends None None result bytes.now }
        ensures cause { HasCause self.old.io_errors self.new.io_errors result }

        // What the sink takes, and why it fails.
        ensures passes { WriteAppends (K.observed self.old.sink).bytes (K.observed self.new.sink).bytes result bytes.now }
        ensures why { HasCause (K.observed self.old.sink).io_errors (K.observed self.new.sink).io_errors result }
        ensures source { self.new.source ≡ self.old.source }
    {
        match self.sink.put(bytes) {
            Ok(count) => Ok(count),
            Err(_) => {
                self.io_errors = self.io_errors.saturating_add(1);
                Err(Failed)
            }
        }
    }
}

impl<R: Source + Drop, K: Sink + Drop> Terminal for IoTerminal<R, K> {
    /// Gives what the source gives, and fails exactly if the source does.
    fn wait(&mut self, into: &mut [u8; READ_CAPACITY]) -> Result<usize, Failed>
        ensures bound { ReadsAtMost result into.new }
        ensures trace { MatchResult result
            (λ n. Traced (record { bytes = None; io_errors = self.old.io_errors }) (record { bytes = None; io_errors = self.new.io_errors }) (read_entry (take n into.new)))
            (λ _. ReadFailed (record { bytes = None; io_errors = self.old.io_errors }) (record { bytes = None; io_errors = self.new.io_errors })) }
        ensures bytes { ReadConsumes (R.observed self.old.source).bytes (R.observed self.new.source).bytes result into.new }
        ensures why { HasCause (R.observed self.old.source).io_errors (R.observed self.new.source).io_errors result }
        ensures sink { self.new.sink ≡ self.old.sink }
    {
        match self.source.read(into) {
            Ok(count) => Ok(count),
            Err(_) => {
                self.io_errors = self.io_errors.saturating_add(1);
                Err(Failed)
            }
        }
    }
}
