//! The last screen of an app over reads.

use std::alloc::Global;
use test_help::shows;
use tui_app::{App, run_over};
use tui_cells::{Mem, Size};

/// Whether the last screen of an app over these reads, of this size, shows these rows.
pub(crate) fn ends_with<A: App>(
    alloc: Global,
    app: &mut A,
    size: Size,
    reads: &[&[u8]],
    rows: &str,
) -> Mem<bool> {
    let screens = run_over(alloc, app, size, reads)?;
    match screens.as_slice().last() {
        Some(screen) => shows(alloc, screen, rows),
        None => Ok(false),
    }
}
