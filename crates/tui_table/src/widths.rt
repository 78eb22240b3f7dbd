//! Checks the widths of columns.

ghost use Rattle.std.specs.Prelude.{◌≡◌, ℕ, IfErr, IfOk, None, OnOk, Some};
ghost use Rattle.tui_table.specs.Widths.{first_above_100, is_above_100};

use crate::widths_error::WidthsError;
use tui_cells::Mem;
use tui_layout::Constraint;

/// Whether the width is a percentage above 100.
fn is_above_100(width: Constraint) -> bool
    ensures { result ≡ is_above_100 width }
{
    match width {
        Constraint::Percentage(percent) => percent > 100,
        _ => false,
    }
}

/// Returns the index, from 0, of the first width that is a percentage above 100.
pub(crate) fn first_above_100(widths: &[Constraint]) -> Option<usize>
    ensures { result ≡ first_above_100 widths.now }
{
    'widths: for i in 0..widths.len() {
        if is_above_100(widths[i]) {
            return Some(i);
        }
    }
    None
}

/// Fails with `PercentageAbove100` if a width is a percentage above 100, and reports the first such width.
pub(crate) fn check_widths(widths: &[Constraint]) -> Result<(), WidthsError>
    ensures ok { OnOk result (first_above_100 widths.now ≡ None) }
    ensures err { IfErr result (λ e. (index : ℕ) × (e ≡ WidthsError.PercentageAbove100 index) × (first_above_100 widths.now ≡ Some index)) }
{
    match first_above_100(widths) {
        None => Ok(()),
        Some(index) => Err(WidthsError::PercentageAbove100 { index }),
    }
}

/// Returns the same widths. Fails with `NoMemory` if there is no memory for them.
pub(crate) fn clone_widths(widths: &Vec<Constraint>) -> Mem<Vec<Constraint>>
    ensures { IfOk result (λ copy. copy.items ≡ widths.now.items) }
{
    let mut copy = Vec::with_capacity(*widths.allocator(), widths.len())?;
    copy.extend_from_slice(widths)?;
    Ok(copy)
}
