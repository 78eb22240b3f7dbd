//! Comparing two rows.

ghost use Rattle.std.specs.Prelude.{◌≡◌, ◌≤◌, drop, length};
ghost use Rattle.tui_terminal_laws.specs.Sent.{is_same};

use tui_cells::Cell;

/// Returns the column after the last cell in which two rows of the same length differ, or 0
/// if they are equal.
pub(crate) fn changed_end(old: &[Cell], new: &[Cell]) -> usize
    requires { length old.now ≡ length new.now }
    ensures { (result ≤ length new.now) × (drop result old.now ≡ drop result new.now) }
{
    'places: for back in 0..new.len() {
        let place = new.len() - 1 - back;
        if !old[place].is_same(&new[place]) {
            return place + 1;
        }
    }
    0
}

/// Whether two cells show the same.
#[inline(always)]
pub(crate) fn is_same_cell(old: &Cell, new: &Cell) -> bool
    ensures { result ≡ is_same old.now new.now }
{
    old.is_same(new)
}
