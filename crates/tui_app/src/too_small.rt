//! What an app shows on a screen that has no room for it.

ghost use Rattle.std.specs.Prelude.{◌≡◌, IsOk, OnOk};
ghost use Rattle.tui_app.specs.TooSmall.{DrawsTooSmall};
ghost use Rattle.tui_cells.specs.Buffer.{IsFilled};
ghost use Rattle.tui_cells.specs.Cell.{blank};

use tui_cells::{Buffer, Mem, Position, Style};
use tui_text::set_stringn_in;

/// Writes `too small` into a blank buffer, from its first cell on, as far as it fits in the first row.
/// Never allocates.
pub fn draw_too_small(buf: &mut Buffer) -> Mem<()>
    requires { IsFilled buf.old.area blank buf.old }
    ensures says { OnOk result (DrawsTooSmall buf.new) }
    ensures area { OnOk result (buf.new.area ≡ buf.old.area) }
    ensures allocation_free { IsOk result }
{
    let area = buf.area();
    let at = Position {
        x: area.x,
        y: area.y,
    };
    set_stringn_in(buf, area, at, "too small", 9, Style::new())?;
    Ok(())
}
