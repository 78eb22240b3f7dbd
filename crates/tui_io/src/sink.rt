//! Destinations of bytes.

ghost use Rattle.std.specs.Prelude.{◌<◌, length, IfOk};
ghost use Rattle.std.specs.Io.{WritesAtMost};
ghost use Rattle.std.specs.Io.KnownBytes.{WriteAppends};
ghost use Rattle.tui_io.specs.Causes.{HasCause, Observed};

use crate::source::Failed;

/// The sink did not take all of the bytes.
#[derive(Clone, Copy, Debug, PartialEq, Eq)]
pub struct WriteFault;

/// A destination of bytes, similar to `std::io::Write`.
pub trait Sink {
    // The bytes that were written, if they are known, and the number of failed writes. That
    // counter saturates.
    ghost observed: { Self → Observed };

    /// Takes a prefix of the bytes, at least one byte if there are any, and returns its length. `Failed`
    /// leaves the written bytes as they were.
    fn put(&mut self, bytes: &[u8]) -> Result<usize, Failed>
        ensures bound { WritesAtMost result bytes.now }
        ensures some { IfOk result (λ n. 0 < length bytes.now → 0 < n) }
        ensures bytes { WriteAppends (observed self.old).bytes (observed self.new).bytes result bytes.now }
        ensures cause { HasCause (observed self.old).io_errors (observed self.new).io_errors result };
}
