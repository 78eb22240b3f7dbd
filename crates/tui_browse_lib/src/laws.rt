//! What holds for every session of a pager.

ghost use Rattle.tui_browse_lib.specs.Laws.{PagerIsShown};

use tui_app_laws::waiting_law;
use tui_terminal_model::Output;

/// While a session waits for input, any terminal that has read the output shows the pager's screen, whatever it showed
/// before. That is the screen drawn for the state that all keys and sizes led to. The list draws the selected entry if
/// its title has at most as many lines as the list has rows. If the screen is too small for a pager it shows `too
/// small`, and the pager's state is kept.
pub fn paging_law(output: Output)
    ensures { PagerIsShown output }
{
    waiting_law::<crate::paging::PagerApp<'_>>(output);
}
