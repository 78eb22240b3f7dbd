//! A whole run, from the arguments, the file and the keys to what the terminal is sent.

ghost use Rattle.tui_browse_run.specs.Ends.{Ends, EndsOn};
ghost use Rattle.tui_system.specs.Opening.{CanBeOpen};

use crate::browsing::show_file;
use crate::format::Format;
use tui_app::Terminal;
use tui_pager_run::BadInput;
use tui_program::{Outcome, report_stop};
use tui_system::{Console, Left, System, open_terminal, session_outcome};

/// Reads a file to its end, and shows its entries in a pager on the terminal until the user quits. The arguments are
/// FILE, for entries in JSON (docs/PROGRAMS.md), or `--text` and FILE, for text. If the terminal can't be opened, the run
/// ends with `WriteFault`, and the file is not read. Invalid input is rejected in one line before the terminal is
/// entered. `Stop` lists the causes of each outcome.
pub fn browse<S: System, T: Console>(system: &S, terminal: &mut T) -> Outcome<Left, BadInput>
    ensures { Ends (S.gives system.now) (CanBeOpen T.observed T.is_open (T.observed terminal.old))
        (T.observed terminal.old) (T.observed terminal.new) result }
{
    open_terminal::<BadInput, T>(terminal)?;
    browse_on(system, terminal)
}

/// Browses on a terminal that is open.
fn browse_on<S: System, T: Terminal>(system: &S, terminal: &mut T) -> Outcome<Left, BadInput>
    ensures { EndsOn (S.gives system.now) (T.observed terminal.old) (T.observed terminal.new) result }
{
    match show_file(system, terminal) {
        Ok(end) => session_outcome(end),
        Err(stop) => Err(report_stop::<Format, T>(stop, terminal)),
    }
}
