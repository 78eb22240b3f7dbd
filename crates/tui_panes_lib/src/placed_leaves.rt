//! The rectangles of leaves.

ghost use Rattle.std.specs.Prelude.{◌≡◌, ◌<◌, IfNone, IfOk, IfSome, All, false, true, length, map, slice_index_or};
ghost use Rattle.tui_cells.specs.Rect.{covers};
ghost use Rattle.tui_cells.specs.declared.rect.Rect.{Rect};
ghost use Rattle.tui_scene.specs.Item.{placed_data};
ghost use Rattle.tui_panes_lib.specs.Panes.{rects_of};

use std::alloc::Global;
use tui_cells::{Mem, Position, Rect};
use tui_scene::Placed;

/// Returns the rectangles of widgets.
pub(crate) fn areas(alloc: Global, items: &[Placed<'_>]) -> Mem<Vec<Rect>>
    ensures { IfOk result (λ rects. rects.items ≡ rects_of (map placed_data items.now)) }
{
    let mut rects = Vec::with_capacity(alloc, items.len())?;
    for placed in items {
        rects.push(placed.area)?;
    }
    Ok(rects)
}

/// Returns `count` marks, none of them set.
pub(crate) fn marks(alloc: Global, count: usize) -> Mem<Vec<bool>>
    ensures { IfOk result (λ marks. length marks.items ≡ count) }
{
    let mut marks = Vec::with_capacity(alloc, count)?;
    for _ in 0..count {
        marks.push(false)?;
    }
    Ok(marks)
}

/// Returns the first rectangle that contains a position.
pub(crate) fn first_at(rects: &[Rect], p: Position) -> Option<usize>
    ensures some { IfSome result (λ i. (i < length rects.now) × ((d : Rect) → covers (slice_index_or rects.now i d) p.x p.y ≡ true)) }
    ensures none { IfNone result (All (λ r. covers r p.x p.y ≡ false) rects.now) }
{
    rects.iter().position(|r| r.contains(p))
}
