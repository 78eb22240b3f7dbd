//! Sources of bytes.

ghost use Rattle.std.specs.Io.{ReadsAtMost};
ghost use Rattle.std.specs.Io.KnownBytes.{ReadConsumes};
ghost use Rattle.tui_io.specs.Causes.{HasCause, Observed};

/// A read or a write failed.
#[derive(Clone, Copy, Debug, PartialEq, Eq)]
pub struct Failed;

/// A source of bytes, similar to `std::io::Read`.
pub trait Source {
    // The bytes that are left, if they are known, and the number of failed reads. That counter saturates.
    ghost observed: { Self → Observed };

    /// Copies some of the bytes that are left to the start of `into`, in order, and returns their number. If
    /// `into` isn't empty, 0 means the end of the input. `Failed` leaves the bytes as they were.
    fn read(&mut self, into: &mut [u8]) -> Result<usize, Failed>
        ensures bound { ReadsAtMost result into.new }
        ensures bytes { ReadConsumes (observed self.old).bytes (observed self.new).bytes result into.new }
        ensures cause { HasCause (observed self.old).io_errors (observed self.new).io_errors result };
}
