//! Terminals that are opened by a run.

ghost use Rattle.std.specs.Prelude.{◌≡◌, IsOk, IsOkAnd};
ghost use Rattle.tui_system.specs.Opening.{Opens, OpensOrStops};

use tui_app::{MemTerminal, Terminal};
use tui_cells::Mem;
use tui_io::Failed;
use tui_program::{Outcome, Stop};

/// A terminal that a run opens before it uses it.
pub trait Console: Terminal {
    // Whether it is open.
    ghost is_open: { Self → Type 0 };

    /// Opens the terminal. Returns `Failed` if it can't be opened, which counts as a write that failed; a line on
    /// standard error says why. Fails with `NoMemory` if the system is out of memory.
    fn open(&mut self) -> Mem<Result<(), Failed>>
        ensures opens { Opens (Self.observed self.old) (Self.observed self.new) (is_open self.new) result };
}

impl Console for MemTerminal {
    ghost use Rattle.std.specs.Prelude.{⊤};

    // A terminal in memory is always open.
    ghost is_open = { λ _. ⊤ };

    /// Always succeeds, and does not allocate.
    fn open(&mut self) -> Mem<Result<(), Failed>>
        ensures ready { IsOkAnd result IsOk }
        ensures same { self.new ≡ self.old }
    {
        Ok(Ok(()))
    }
}

/// Opens the terminal of a run. Fails with `WriteFault` if it can't be opened.
pub fn open_terminal<R, T: Console>(terminal: &mut T) -> Outcome<(), R>
    ensures { OpensOrStops (T.observed terminal.old) (T.observed terminal.new) (T.is_open terminal.new) result }
{
    match terminal.open()? {
        Ok(()) => Ok(()),
        Err(Failed) => Err(Stop::WriteFault),
    }
}
