//! Strokes that lists and tabs share.

ghost use Rattle.std.specs.Prelude.{[], if◌then◌else◌};
ghost use Rattle.tui_cells.specs.Cell.{set_style};
ghost use Rattle.tui_cells.specs.Layers.{KeptOutside, Painted, stroke};
ghost use Rattle.tui_cells.specs.Rect.{covers};

use tui_cells::{Buffer, Rect, Style};

/// Sets the highlight style on an area if this is the selected one.
pub(crate) fn highlight_if(is_selected: bool, buf: &mut Buffer, area: Rect, style: Style)
    ensures ok { Painted (if is_selected then stroke (covers area) (set_style style) else []) buf.old buf.new }
    ensures kept { KeptOutside (covers area) buf.old buf.new }
{
    if is_selected {
        buf.set_style(area, style);
    }
}
