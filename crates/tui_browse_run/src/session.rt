//! A session.

ghost use Rattle.std.specs.Prelude.{map};
ghost use Rattle.tui_browse_run.specs.Shown.{AreEntriesShown};
ghost use Rattle.tui_pager_lib.specs.Entry.{entry_data};

use std::alloc::Global;
use tui_app::{AppEnd, Terminal, run};
use tui_browse_lib::PagerApp;
use tui_cells::NoMemory;
use tui_pager_lib::Entry;
use tui_system::Setting;

/// Shows entries in a pager on a terminal. It ends when the user quits, or otherwise as `tui_app::run` does. Writes
/// nothing if memory for the pager or its first screen is missing (`NoMemory`).
pub fn show<T: Terminal>(
    alloc: Global,
    entries: Vec<Entry<'_>>,
    setting: Setting,
    terminal: &mut T,
) -> AppEnd
    ensures { AreEntriesShown setting (T.observed terminal.old) (T.observed terminal.new) (map entry_data entries.entry.items) result }
{
    match PagerApp::new(alloc, setting.size.width, setting.size.height, entries) {
        Ok(app) => {
            let mut app = app;
            run(alloc, &mut app, setting.output, setting.size, terminal)
        }
        Err(NoMemory) => AppEnd::NoMemory,
    }
}
