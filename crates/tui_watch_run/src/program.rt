//! A whole run, from the arguments and the keys to what the terminal is sent.

ghost use Rattle.tui_system.specs.Opening.{CanBeOpen};
ghost use Rattle.tui_watch_run.specs.Ends.{Ends, EndsOn, Watches};

use crate::arguments::WatchCommand;
use crate::machines::Machines;
use tui_app::{AppEnd, Terminal, run};
use tui_program::{Outcome, report_stop};
use tui_system::{
    Console, Left, RejectsNothing, System, command_of, open_terminal, session_outcome, setting,
};
use tui_watch_lib::Watch;

/// Shows a dashboard of the machine on the terminal until the user quits. The machine is that of the FOLDER that the
/// arguments name, or of /proc. If the terminal can't be opened, the run ends with `WriteFault`. `Stop` lists the causes of each outcome.
pub fn watch<S: System, M: Machines, T: Console>(
    system: &S,
    machines: &M,
    terminal: &mut T,
) -> Outcome<Left, ()>
    ensures { Ends (S.gives system.now) (M.is_at machines.now) (CanBeOpen T.observed T.is_open (T.observed terminal.old))
        (T.observed terminal.old) (T.observed terminal.new) result }
{
    open_terminal::<(), T>(terminal)?;
    watch_on(system, machines, terminal)
}

/// Watches a machine on a terminal that is open.
fn watch_on<S: System, M: Machines, T: Terminal>(
    system: &S,
    machines: &M,
    terminal: &mut T,
) -> Outcome<Left, ()>
    ensures { EndsOn (S.gives system.now) (M.is_at machines.now) (T.observed terminal.old) (T.observed terminal.new) result }
{
    match watch_named(system, machines, terminal) {
        Ok(end) => session_outcome(end),
        Err(stop) => Err(report_stop::<RejectsNothing, T>(stop, terminal)),
    }
}

/// Watches the machine that the arguments name. If the run is stopped before, nothing is written to the terminal.
fn watch_named<S: System, M: Machines, T: Terminal>(
    system: &S,
    machines: &M,
    terminal: &mut T,
) -> Outcome<AppEnd, ()>
    ensures { Watches (S.gives system.now) (M.is_at machines.now) (T.observed terminal.old) (T.observed terminal.new) result }
{
    let WatchCommand { folder } = command_of::<WatchCommand, (), S>(system)?;
    let setting = setting(system)?;
    let mut app = Watch::new(system.alloc(), machines.at(folder))?;
    Ok(run(
        system.alloc(),
        &mut app,
        setting.output,
        setting.size,
        terminal,
    ))
}
