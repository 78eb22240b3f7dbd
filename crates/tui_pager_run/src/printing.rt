//! Writing the output of a run.

ghost use Rattle.std.specs.Prelude.{◌≡◌, ◌<◌, ◌++◌, ℕ, List, [], true};
ghost use Rattle.tui_pager_run.specs.Printed.{key_line, key_lines};
ghost use Rattle.tui_io.specs.Causes.{Writes};
ghost use Rattle.tui_io.specs.Prints.{Prints};
ghost use Rattle.tui_print.specs.Print.{IsPrint};
ghost use Rattle.tui_pager_lib.specs.Screen.{IsDrawnOnBlank, page_area, pager_layers};
ghost use Rattle.tui_cells.specs.Buffer.{Screen};

use crate::run::Run;
use tui_cells::Buffer;
use tui_io::{Print, Sink, WriteFault};
use tui_pager_lib::PagerState;
use tui_print::emit_runs;
use tui_rows::emit_rows;

/// Writes the line of each state, and the print of the last screen. On `WriteFault` the sink has taken the first bytes,
/// but not all of them. Does not allocate.
pub(crate) fn write_run<K: Sink>(run: &Run<'_>, sink: &mut K) -> Result<(), WriteFault>
    ensures { (screen : Screen) × (text : List ℕ)
        × IsDrawnOnBlank (pager_layers run.now.pager) (page_area run.now.pager.width run.now.pager.height) screen
        × IsPrint screen [] text
        × Writes (K.observed sink.old) (K.observed sink.new) result (key_lines 0 run.now.states.items ++ text) }
{
    let mut print = Print::new();
    add_states(&mut print, sink, &run.states);
    add_screen(&mut print, sink, run.pager.screen());
    print.end(sink)
}

/// Adds a line for each state.
fn add_states<K: Sink>(print: &mut Print, sink: &mut K, states: &[PagerState])
    ensures { Prints (K.observed sink.old) (K.observed sink.new) print.old print.new (key_lines 0 states.now) }
{
    'states: for number in 0..states.len() {
        add_state(print, sink, number, &states[number]);
    }
}

fn add_state<K: Sink>(print: &mut Print, sink: &mut K, number: usize, state: &PagerState)
    ensures { Prints (K.observed sink.old) (K.observed sink.new) print.old print.new (key_line number state.now) }
{
    let line = usize::from(state.line);
    print.text(sink, "k ");
    print.number(sink, number);
    print.text(sink, " ");
    print.place(sink, state.selected);
    print.text(sink, " ");
    print.number(sink, state.offset);
    print.text(sink, " ");
    print.number(sink, line);
    print.text(sink, "\n");
}

/// Adds the rows and the runs of a screen.
fn add_screen<K: Sink>(print: &mut Print, sink: &mut K, screen: &Buffer)
    ensures { (text : List ℕ) × IsPrint screen.now [] text
        × Prints (K.observed sink.old) (K.observed sink.new) print.old print.new text }
{
    emit_rows(print, screen, sink);
    emit_runs(print, screen, sink);
}
