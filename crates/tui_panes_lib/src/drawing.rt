//! Drawing leaves.

ghost use Rattle.std.specs.Prelude.{◌≡◌, ◌<◌, All, IfErr, IsOk, OnErr, OnOk, length, map, slice_set};
ghost use Rattle.tui_cells.specs.Layers.{KeptOutside, Painted};
ghost use Rattle.tui_scene.specs.Item.{IsAllocationFreePlaced, placed_after, placed_data};
ghost use Rattle.tui_scene.specs.Redraw.{IsOrder};
ghost use Rattle.tui_scene.specs.Scene.{DrawRun, placed_at, scene_layers};
ghost use Rattle.tui_panes_lib.specs.Draw.{StoppedInOrder, in_order};
ghost use Rattle.tui_panes_lib.specs.Panes.{rects_of};
ghost use Rattle.tui_panes_lib.specs.Replace.{IsRedrawn, touched};

use crate::order_error::OrderError;
use std::alloc::Global;
use tui_cells::{Buffer, Mem, NoMemory};
use tui_scene::{Placed, Scene, draw_at};

/// Draws the widgets of a scene in the given order.
pub(crate) fn draw_leaves(
    alloc: Global,
    scene: &mut Scene<'_>,
    order: &[usize],
    buf: &mut Buffer,
) -> Result<(), OrderError>
    requires { IsOrder (length scene.old) order.now }
    ensures run { OnOk result (DrawRun (in_order order.now scene.old) (in_order order.now scene.new) buf.old buf.new) }
    ensures ok { OnOk result (Painted (scene_layers buf.old.area (in_order order.now scene.old)) buf.old buf.new) }
    ensures states { OnOk result (scene.new ≡ map (placed_after buf.old.area) scene.old) }
    ensures areas { rects_of scene.new ≡ rects_of scene.old }
    ensures err { IfErr result (StoppedInOrder order.now scene.old scene.new buf.old buf.new) }
    ensures allocation_free { All (IsAllocationFreePlaced buf.old.area) scene.old → IsOk result }
{
    'leaves: for &at in order {
        match draw_at(alloc, scene, at, buf) {
            Ok(()) => {}
            Err(NoMemory) => return Err(OrderError::NoMemory { at }),
        }
    }
    Ok(())
}

/// Replaces a widget of a scene, resets its area and draws the new widget. On `NoMemory` the old widget is back in its
/// place.
pub(crate) fn redraw<'v>(
    alloc: Global,
    scene: &mut Scene<'v>,
    at: usize,
    placed: Placed<'v>,
    buf: &mut Buffer,
) -> Mem<()>
    requires { at < length scene.old }
    ensures ok { OnOk result (IsRedrawn (placed_data placed.entry) (placed_at scene.new at) buf.old buf.new) }
    ensures state { OnOk result
        (scene.new ≡ slice_set scene.old at (placed_after buf.old.area (placed_data placed.entry))) }
    ensures err { OnErr result (KeptOutside (touched buf.old.area (placed_data placed.entry)) buf.old buf.new) }
    ensures err_state { OnErr result (scene.new ≡ scene.old) }
    ensures allocation_free { IsAllocationFreePlaced buf.old.area (placed_data placed.entry) → IsOk result }
{
    buf.reset(placed.area);
    let old = scene.replace(at, placed);
    match draw_at(alloc, scene, at, buf) {
        Ok(()) => Ok(()),
        Err(NoMemory) => {
            scene.replace(at, old);
            Err(NoMemory)
        }
    }
}
