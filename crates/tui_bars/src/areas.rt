//! Filling the part of an area that is in a clip.

ghost use Rattle.std.specs.Prelude.{IsOk, OnOk};
ghost use Rattle.tui_bars.specs.Areas.{fill_layers};
ghost use Rattle.tui_cells.specs.Cell.{IsAllocationFree};
ghost use Rattle.tui_cells.specs.Layers.{KeptOutside, Painted};
ghost use Rattle.tui_cells.specs.Rect.{covers};

use std::alloc::Global;
use tui_cells::{Buffer, Mem, Rect, Style};

/// What is written to each cell of an area.
#[derive(Clone, Copy)]
pub(crate) struct StyledSymbol<'s> {
    pub(crate) symbol: &'s str,
    pub(crate) style: Style,
}

/// Writes a symbol and then a style to each cell of the area that is in the clip.
#[tactic(auto, unfolding(crate::specs::Areas::fill_layers))]
pub(crate) fn fill_clipped(
    alloc: Global,
    buf: &mut Buffer,
    clip: Rect,
    area: Rect,
    content: StyledSymbol<'_>,
) -> Mem<()>
    ensures ok { OnOk result (Painted (fill_layers clip area content.entry.symbol.now content.entry.style) buf.old buf.new) }
    ensures kept { KeptOutside (covers clip) buf.old buf.new }
    ensures allocation_free { IsAllocationFree content.entry.symbol.now → IsOk result }
{
    buf.fill(
        alloc,
        clip.intersection(area),
        content.symbol,
        content.style,
    )
}
