//! The `Terminal` trait.

ghost use Rattle.std.specs.Prelude.{MatchResult, take};
ghost use Rattle.std.specs.Io.{ReadsAtMost};
ghost use Rattle.tui_app.specs.Trace.{ReadFailed, Traced, read_entry};

use tui_io::{Failed, Sink};

/// The largest number of bytes that a read gives. A shorter read has given all that was available.
pub const READ_CAPACITY: usize = 1024;

/// A sink that also gives input. Its trace can be observed: the written bytes, and between them an entry
/// for each read that did not fail, with the bytes that it gave. The number of failed writes and reads can
/// be observed too.
pub trait Terminal: Sink {
    /// Waits for input. Copies some bytes to the start of `into`, and returns their number; 0 is the end of
    /// the input. `Failed` leaves the trace as it was.
    fn wait(&mut self, into: &mut [u8; READ_CAPACITY]) -> Result<usize, Failed>
        ensures bound { ReadsAtMost result into.new }
        ensures trace { MatchResult result (λ n. Traced (Self.observed self.old) (Self.observed self.new) (read_entry (take n into.new)))
            (λ _. ReadFailed (Self.observed self.old) (Self.observed self.new)) };
}
