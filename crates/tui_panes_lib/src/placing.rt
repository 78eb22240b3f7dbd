//! Placing panes.

ghost use Rattle.std.specs.Prelude.{◌≡◌, ◌+◌, ◌<◌, ◌↔◌, Err, IfOk};
ghost use Rattle.tui_panes_lib.specs.Levels.{levels};
ghost use Rattle.tui_panes_lib.specs.Pane.{pane_data, sizes_data};
ghost use Rattle.tui_panes_lib.specs.Place.{origin_of, part_of, leaves_in, side_of};
ghost use Rattle.tui_panes_lib.specs.declared.error.PanesError.TheVariants.{TooDeep};

use crate::error::PanesError;
use crate::levels::is_within_levels;
use crate::pane::{Pane, Part};
use std::alloc::Global;
use tui_cells::{Mem, NoMemory, Rect};
use tui_layout::{Constraint, Direction, Segment};
use tui_scene::Scene;

/// The levels of the deepest tree that can be placed.
const MAX_LEVELS: u8 = 32;

/// Returns the leaves of a tree of panes in order, each with its rectangle of an area. First the far edges of the area
/// are limited to 65535. A leaf takes its whole area. A split cuts the width (`Horizontal`) or the height (`Vertical`)
/// of its area into segments, one for each part, as `split` of the layout does. Each part takes its segment.
///
/// Fails with `TooDeep` if and only if the tree has more than 32 levels; a single leaf has one. This is tested first
/// and does not allocate.
pub fn scene_in<'v>(alloc: Global, area: Rect, root: Pane<'v>) -> Result<Scene<'v>, PanesError>
    ensures placed { IfOk result (λ scene. scene ≡ leaves_in area (pane_data root.entry)) }
    ensures deep { (result ≡ Err TooDeep) ↔ (32 < levels (pane_data root.entry)) }
{
    if !is_within_levels(&root, MAX_LEVELS) {
        return Err(PanesError::TooDeep);
    }
    let mut scene = Scene::new(alloc);
    let whole = Rect::new(area.x, area.y, area.width, area.height);
    match root.place(alloc, whole, &mut scene) {
        Ok(()) => Ok(scene),
        Err(NoMemory) => Err(PanesError::NoMemory),
    }
}

/// Returns the requested sizes of parts.
pub(crate) fn sizes(alloc: Global, parts: &[Part<'_>]) -> Mem<Vec<Constraint>>
    ensures { IfOk result (λ sizes. sizes.items ≡ sizes_data parts.now) }
{
    let mut sizes = Vec::with_capacity(alloc, parts.len())?;
    for part in parts {
        sizes.push(part.size)?;
    }
    Ok(sizes)
}

/// Returns the length of the side that a split in this direction cuts.
pub(crate) fn side(direction: Direction, area: Rect) -> u16
    ensures { result ≡ side_of direction area }
{
    match direction {
        Direction::Horizontal => area.width,
        Direction::Vertical => area.height,
    }
}

/// Returns the part of an area that a segment cuts out in a direction.
pub(crate) fn part_area(direction: Direction, area: Rect, column: Segment) -> Rect
    requires { origin_of direction area + column.start < 65536 }
    ensures { result ≡ part_of direction area column }
{
    match direction {
        Direction::Horizontal => Rect {
            x: area.x + column.start,
            width: column.width,
            ..area
        },
        Direction::Vertical => Rect {
            y: area.y + column.start,
            height: column.width,
            ..area
        },
    }
}
