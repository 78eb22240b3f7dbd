//! Optional labels of widgets.

ghost use Rattle.std.specs.Prelude.{◌≡◌, IfOk, option_map, true};
ghost use Rattle.tui_text.specs.Line.{line_data};

use tui_cells::Mem;
use tui_text::Line;

/// Returns a copy of an optional label. Fails with `NoMemory` if its spans can't be allocated.
pub(crate) fn clone_label<'a>(label: &Option<Line<'a>>) -> Mem<Option<Line<'a>>>
    ensures is { IfOk result (λ copy. option_map line_data copy ≡ option_map line_data label.now) }
    ensures equal { IfOk result (λ copy. ⟦<Option<Line<'a>> as PartialEq>⟧.eq copy label.now ≡ true) }
{
    match label {
        None => Ok(None),
        Some(line) => Ok(Some(line.clone()?)),
    }
}
