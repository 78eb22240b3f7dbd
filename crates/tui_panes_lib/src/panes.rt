//! Panes.

ghost use Rattle.std.specs.Prelude.{◌≡◌, ◌<◌, ◌↔◌, ℕ, All, Err, IfOk, IsOk, OnErr, OnOk, Some, length, slice_set, true};
ghost use Rattle.tui_cells.specs.Buffer.{IsFilled};
ghost use Rattle.tui_cells.specs.Cell.{blank};
ghost use Rattle.tui_cells.specs.Layers.{KeptOutside};
ghost use Rattle.tui_cells.specs.Rect.{covers};
ghost use Rattle.tui_scene.specs.Item.{IsAllocationFreePlaced, item_data, placed_after};
ghost use Rattle.tui_scene.specs.Laws.{Draws};
ghost use Rattle.tui_scene.specs.Redraw.{IsFresh, IsOrder, IsReplaced};
ghost use Rattle.tui_scene.specs.Scene.{DrawRun, placed_at};
ghost use Rattle.tui_scene.specs.Shadow.{HasNoShadow};
ghost use Rattle.tui_panes_lib.specs.Draw.{HaveNoShadow, StoppedAt, in_order, panes_after};
ghost use Rattle.tui_panes_lib.specs.Panes.{panes_of, rects_of};
ghost use Rattle.tui_panes_lib.specs.Replace.{IsRedrawn, panes_with, item_in_leaf, touched};
ghost use Rattle.tui_panes_lib.specs.declared.order_error.OrderError.TheVariants as orders;
ghost use Rattle.tui_panes_lib.specs.Apart.{AreDisjointWithin};
ghost use Rattle.tui_panes_lib.specs.Levels.{levels};
ghost use Rattle.tui_panes_lib.specs.Pane.{pane_data};
ghost use Rattle.tui_panes_lib.specs.declared.error.PanesError.TheVariants as errors;

use crate::drawing::{draw_leaves, redraw};
use crate::order::is_order;
use crate::order_error::OrderError;
use crate::placed_leaves::{areas, first_at, marks};
use crate::{Pane, PanesError, scene_in};
use std::alloc::Global;
use std::marker::Model;
use tui_cells::{Buffer, Mem, Position, Rect};
use tui_scene::{Item, Placed, Scene};

/// The leaves of a tree of panes on a screen, in order. Each is a widget with its state in a rectangle of the panes'
/// area. Leaves are numbered from 0 in depth-first order, the first part of each split first.
pub struct Panes<'v> {
    area: Rect,
    rects: Vec<Rect>,
    scene: Scene<'v>,
    // One for each leaf, allocated once, so that testing an order does not allocate.
    marks: Vec<bool>,
}

// Written by hand, so that dependent crates need no proofs about dropping the fields.
impl<'v> Drop for Panes<'v> {
    fn drop(self) {
        let Panes {
            area,
            rects,
            scene,
            marks,
        } = self;
    }
}

impl<'v> Model for Panes<'v> {
    ghost use Rattle.tui_panes_lib.specs.Panes.{AreConsistent, PanesData};

    ghost Value = { PanesData };

    ghost view = { λ p. record { area = p.area; leaves = p.scene } };

    ghost invariant = { λ p. AreConsistent p.area p.rects.items p.marks.items p.scene };
}

impl<'v> Panes<'v> {
    /// Places the panes of a tree in an area, each leaf where `scene_in` places it. Fails with `TooDeep` if and only if
    /// the tree has more than 32 levels; a single leaf has one. Fails with `NoMemory` if the leaves can't be allocated.
    pub fn new(alloc: Global, area: Rect, root: Pane<'v>) -> Result<Panes<'v>, PanesError>
        ensures placed { IfOk result (λ panes. panes ≡ panes_of area (pane_data root.entry)) }
        ensures deep { (result ≡ Err errors.TooDeep) ↔ (32 < levels (pane_data root.entry)) }
    {
        let scene = scene_in(alloc, area, root)?;
        let Ok(rects) = areas(alloc, scene.items()) else {
            return Err(PanesError::NoMemory);
        };
        let Ok(marks) = marks(alloc, rects.len()) else {
            return Err(PanesError::NoMemory);
        };
        Ok(Panes {
            area,
            rects,
            scene,
            marks,
        })
    }

    /// Returns the rectangle of each leaf. Each is inside the area, and no two share a position.
    pub fn rects(&self) -> &[Rect]
        ensures places { result.now ≡ rects_of self.now.leaves }
        ensures apart { AreDisjointWithin self.now.area result.now }
    {
        self.rects.as_slice()
    }

    /// Returns the leaves as a scene: each widget with its state and its rectangle.
    pub fn scene(&self) -> &Scene<'v>
        ensures { result.now ≡ self.now.leaves }
    {
        &self.scene
    }

    /// Returns the leaf whose rectangle contains a position, if there is one.
    pub fn leaf_at(&self, p: Position) -> Option<usize>
        ensures { (i : ℕ) → (result ≡ Some i)
            ↔ ((i < length self.now.leaves) × (covers (placed_at self.now.leaves i).area p.x p.y ≡ true)) }
    {
        first_at(&self.rects, p)
    }

    /// Draws all leaves, in the order of their numbers in `order`, from first to last.
    ///
    /// The buffer and the states are then those of a run over the leaves in that order. If no widget has a shadow, they
    /// are those of the leaves from first to last, for any order.
    ///
    /// Fails with `NotOrder` if and only if `order` does not have the number of each leaf exactly once and no other
    /// number. This test does not allocate, and nothing is drawn then.
    ///
    /// Fails with `NoMemory` if a leaf fails to allocate. The leaves before it in `order` are then drawn and their
    /// states are updated. That leaf may have changed cells of its footprint, and its state is unchanged. The others
    /// have done nothing. With a valid order the call cannot fail if each widget does not allocate or is outside the
    /// buffer.
    pub fn draw(
        &mut self,
        alloc: Global,
        order: &[usize],
        buf: &mut Buffer,
    ) -> Result<(), OrderError>
        ensures not_order { (result ≡ Err orders.NotOrder) ↔ (IsOrder (length self.old.leaves) order.now → ⊥) }
        ensures nothing { result ≡ Err orders.NotOrder → (self.new ≡ self.old) × (buf.new ≡ buf.old) }
        ensures run { OnOk result (DrawRun (in_order order.now self.old.leaves) (in_order order.now self.new.leaves) buf.old buf.new) }
        ensures given { OnOk result (Draws (in_order order.now self.old.leaves) (in_order order.now self.new.leaves) buf.old buf.new) }
        ensures states { OnOk result (self.new ≡ panes_after buf.old.area self.old) }
        ensures any { HaveNoShadow self.old.leaves → OnOk result (Draws self.old.leaves self.new.leaves buf.old buf.new) }
        ensures fresh { HaveNoShadow self.old.leaves → IsFilled buf.old.area blank buf.old
            → OnOk result (IsFresh self.new.leaves buf.new) }
        ensures no_memory { (at : ℕ) → result ≡ Err (orders.NoMemory at)
            → (self.new.area ≡ self.old.area) × StoppedAt order.now self.old.leaves self.new.leaves buf.old buf.new at }
        ensures allocation_free { IsOrder (length self.old.leaves) order.now → All (IsAllocationFreePlaced buf.old.area) self.old.leaves → IsOk result }
    {
        if !is_order(&mut self.marks, order) {
            return Err(OrderError::NotOrder);
        }
        draw_leaves(alloc, &mut self.scene, order, buf)
    }

    /// Replaces the widget of the leaf numbered `leaf`, resets the leaf's rectangle and draws only that leaf. Then each
    /// cell is the old one, reset inside the rectangle, under the widget's strokes, for any old buffer. The other
    /// leaves are unchanged.
    ///
    /// A buffer is fresh if the leaves would draw it on a blank buffer. If no widget has a shadow and the buffer was
    /// fresh, it is fresh again.
    ///
    /// On `NoMemory` the leaf has its old widget with its old state. No cell outside the rectangle and the new widget's
    /// footprint has changed. If no widget has a shadow and the buffer was fresh before, replacing the same leaf again,
    /// by any widget, makes it fresh again. Replacing another leaf does not. The call cannot fail if the widget does
    /// not allocate or is outside the buffer.
    pub fn replace(
        &mut self,
        alloc: Global,
        leaf: usize,
        item: Item<'v>,
        buf: &mut Buffer,
    ) -> Mem<()>
        requires { leaf < length self.old.leaves }
        ensures ok { OnOk result
            (IsRedrawn (item_in_leaf self.old.leaves leaf (item_data item.entry)) (placed_at self.new.leaves leaf) buf.old buf.new) }
        ensures states { OnOk result (self.new ≡ panes_with self.old leaf
            (placed_after buf.old.area (item_in_leaf self.old.leaves leaf (item_data item.entry)))) }
        ensures replaced { HasNoShadow (item_data item.entry)
            → OnOk result (IsReplaced self.old.leaves leaf (item_in_leaf self.old.leaves leaf (item_data item.entry)) buf.old buf.new) }
        ensures fresh { HaveNoShadow self.old.leaves → HasNoShadow (item_data item.entry) → IsFresh self.old.leaves buf.old
            → OnOk result (IsFresh self.new.leaves buf.new) }
        ensures err { OnErr result (self.new ≡ self.old) }
        ensures kept { OnErr result
            (KeptOutside (touched buf.old.area (item_in_leaf self.old.leaves leaf (item_data item.entry))) buf.old buf.new) }
        ensures allocation_free { IsAllocationFreePlaced buf.old.area (item_in_leaf self.old.leaves leaf (item_data item.entry)) → IsOk result }
    {
        let area = self.rects[leaf];
        redraw(alloc, &mut self.scene, leaf, Placed { area, item }, buf)
    }
}
