//! The screen of panes.

ghost use Rattle.std.specs.Prelude.{◌≡◌, ◌≤◌, ◌<◌, All, IfOk, OnOk, length, map};
ghost use Rattle.tui_cells.specs.Rect.{area_of};
ghost use Rattle.tui_scene.specs.Laws.{Draws};
ghost use Rattle.tui_scene.specs.Redraw.{IsOrder};
ghost use Rattle.tui_scene.specs.Scene.{DrawRun};
ghost use Rattle.tui_panes_lib.specs.Draw.{in_order, panes_after};
ghost use Rattle.tui_panes_lib.specs.Panes.{panes_of};
ghost use Rattle.tui_panes_lib.specs.Levels.{levels};
ghost use Rattle.tui_panes_lib.specs.Pane.{pane_data};
ghost use Rattle.tui_panes_run.specs.Changes.{change_data};
ghost use Rattle.tui_panes_run.specs.Input.{input_data};
ghost use Rattle.tui_panes_run.specs.Order.{numbers_of};
ghost use Rattle.tui_panes_run.specs.Shown.{AreChanged, ArePanesDrawn, leaves_of, screen_area};

use crate::change::PaneChange;
use crate::input::Input;
use crate::order::Order;
use std::alloc::Global;
use tui_cells::{Buffer, Mem, NoMemory, Rect, Size};
use tui_panes_lib::{OrderError, Pane, Panes, PanesError};

/// Panes on a screen, and the screen.
#[derive(Drop)]
pub(crate) struct Screen<'v> {
    pub(crate) panes: Panes<'v>,
    pub(crate) buffer: Buffer,
}

/// Returns the panes of a tree on a screen of this size.
pub(crate) fn placed<'v>(alloc: Global, size: Size, root: Pane<'v>) -> Mem<Panes<'v>>
    requires { levels (pane_data root) ≤ 32 }
    ensures { IfOk result (λ panes. panes ≡ panes_of (area_of 0 0 size.width size.height) (pane_data root.entry)) }
{
    let area = Rect::new(0, 0, size.width, size.height);
    match Panes::new(alloc, area, root) {
        Ok(panes) => Ok(panes),
        Err(PanesError::NoMemory) => Err(NoMemory),
        // The tree was read with at most 32 levels.
        Err(PanesError::TooDeep) => unreachable!(),
    }
}

/// Draws all panes of an input in an order. Then makes its changes, each of which redraws one pane.
pub(crate) fn drawn<'v>(alloc: Global, input: Input<'v>, order: Order) -> Mem<Screen<'v>>
    requires depth { levels (input_data input).root ≤ 32 }
    requires leaves { All (λ c. c.leaf < length (leaves_of (input_data input))) (input_data input).changes }
    ensures { IfOk result (λ screen. ArePanesDrawn (numbers_of order (length (leaves_of (input_data input.entry)))) (screen_area (input_data input.entry))
        (leaves_of (input_data input.entry)) (input_data input.entry).changes screen.panes.leaves screen.buffer) }
{
    let Input {
        size,
        root,
        changes,
    } = input;
    let mut panes = placed(alloc, size, root)?;
    let mut buffer = Buffer::empty(alloc, Rect::new(0, 0, size.width, size.height))?;
    let numbers = numbers_in(alloc, &panes, order)?;
    draw_all(alloc, &mut panes, &numbers, &mut buffer)?;
    change_each(alloc, &mut panes, changes, &mut buffer)?;
    // A screen is printed by its rows, so the proofs need their shape: this call gives it.
    let _height = buffer.height();
    Ok(Screen { panes, buffer })
}

/// Returns the numbers of the leaves of panes in an order.
fn numbers_in(alloc: Global, panes: &Panes<'_>, order: Order) -> Mem<Vec<usize>>
    ensures { IfOk result (λ numbers. numbers.items ≡ numbers_of order (length panes.now.leaves)) }
{
    order.numbers(alloc, panes.rects().len())
}

fn draw_all(alloc: Global, panes: &mut Panes<'_>, numbers: &[usize], buffer: &mut Buffer) -> Mem<()>
    requires { IsOrder (length panes.old.leaves) numbers.now }
    ensures run { OnOk result (DrawRun (in_order numbers.now panes.old.leaves) (in_order numbers.now panes.new.leaves) buffer.old buffer.new) }
    ensures strokes { OnOk result
        (Draws (in_order numbers.now panes.old.leaves) (in_order numbers.now panes.new.leaves) buffer.old buffer.new) }
    ensures states { OnOk result (panes.new ≡ panes_after buffer.old.area panes.old) }
{
    match panes.draw(alloc, numbers, buffer) {
        Ok(()) => Ok(()),
        Err(OrderError::NoMemory { .. }) => Err(NoMemory),
        // The numbers contain each leaf once.
        Err(OrderError::NotOrder) => unreachable!(),
    }
}

fn change_each<'v>(
    alloc: Global,
    panes: &mut Panes<'v>,
    changes: Vec<PaneChange<'v>>,
    buffer: &mut Buffer,
) -> Mem<()>
    requires { All (λ c. c.leaf < length panes.old.leaves) (map change_data changes.items) }
    ensures { OnOk result
        (AreChanged panes.old.leaves buffer.old (map change_data changes.entry.items) panes.new.leaves buffer.new) }
{
    'changes: for change in changes {
        panes.replace(alloc, change.leaf, change.item, buffer)?;
    }
    Ok(())
}
