//! A session.

ghost use Rattle.tui_app.specs.Run.{IsAppRun};
ghost use Rattle.tui_cells.specs.Rect.{area_of};
ghost use Rattle.tui_form_lib.specs.Laws.{form_behaviour};

use std::alloc::Global;
use tui_app::{AppEnd, Terminal, run};
use tui_form_lib::Form;
use tui_system::Setting;

/// Shows a form on a terminal until the user accepts or leaves it, or the session ends otherwise, as `tui_app::run`
/// does. Then it leaves the terminal; the form holds what was filled in.
pub fn show_form<T: Terminal>(
    alloc: Global,
    setting: Setting,
    form: &mut Form,
    terminal: &mut T,
) -> AppEnd
    ensures { IsAppRun form_behaviour setting.output form.old (area_of 0 0 setting.size.width setting.size.height)
        (T.observed terminal.old) (T.observed terminal.new) form.new result }
{
    run(alloc, form, setting.output, setting.size, terminal)
}
