//! What holds for every run of the program.

ghost use Rattle.tui_browse_run.specs.Laws.{BrowsingIsShown};

use tui_browse_lib::paging_law;
use tui_terminal_model::Output;

/// While the session of a run waits for input, and where it stopped, the terminal shows the pager's screen. That is the
/// screen drawn for the state that all keys and sizes led to. The list draws the selected entry if its title has at
/// most as many lines as the list has rows.
pub fn browsing_law(output: Output)
    ensures { BrowsingIsShown output }
{
    paging_law(output);
}
