//! Panes: an area that is split into a tree.

ghost use Rattle.std.specs.Prelude.{◌≡◌, ◌+◌, ◌≤◌, ◌++◌, OnOk};
ghost use Rattle.tui_cells.specs.Rect.{farthest_edge};
ghost use Rattle.tui_panes_lib.specs.Pane.{pane_data};
ghost use Rattle.tui_panes_lib.specs.Place.{place_in};

use crate::placing::{part_area, side, sizes};
use std::alloc::Global;
use tui_cells::{Mem, Rect};
use tui_layout::{Constraint, Direction, Flex, split};
use tui_scene::{Item, Placed, Scene};

/// A pane of a screen: one widget, or parts side by side or one below the other.
#[cycle(panes)]
pub enum Pane<'v> {
    /// A widget over the whole pane.
    Leaf(Item<'v>),
    /// Parts in order, along the pane's width (`Horizontal`) or its height (`Vertical`).
    Split {
        direction: Direction,
        /// How many columns or rows are left free between two parts.
        spacing: u16,
        flex: Flex,
        parts: Vec<Part<'v>>,
    },
}

// Written by hand, so that dependent crates need no proofs about dropping the fields.
impl<'v> Drop for Pane<'v> {
    #[cycle(panes_drop)]
    fn drop(self) {
        match self {
            Pane::Leaf(item) => {}
            Pane::Split {
                direction,
                spacing,
                flex,
                parts,
            } => {}
        }
    }
}

/// A part of a split: how much of the split side it requests, and its pane.
#[cycle(panes)]
pub struct Part<'v> {
    pub size: Constraint,
    pub pane: Pane<'v>,
}

// Written by hand, so that dependent crates need no proofs about dropping the fields.
impl<'v> Drop for Part<'v> {
    #[cycle(panes_drop)]
    fn drop(self) {
        let Part { size, pane } = self;
    }
}

impl<'v> Part<'v> {
    fn into_pane(self) -> Pane<'v>
        ensures { result ≡ self.entry.pane }
    {
        let Part { size: _, pane } = self;
        pane
    }
}

// Here and not in `placing`, since only the module of a type with a `drop` of its own can destructure its values.
impl<'v> Pane<'v> {
    /// Adds the leaves of the pane to a scene, in order, each with its area.
    pub(crate) fn place(self, alloc: Global, area: Rect, scene: &mut Scene<'v>) -> Mem<()>
        requires right { area.x + area.width ≤ farthest_edge }
        requires bottom { area.y + area.height ≤ farthest_edge }
        ensures ok { OnOk result (scene.new ≡ scene.old ++ place_in area (pane_data self.entry)) }
    {
        match self {
            Pane::Leaf(item) => scene.push(Placed { area, item }),
            Pane::Split {
                direction,
                spacing,
                flex,
                parts,
            } => {
                let sizes = sizes(alloc, &parts)?;
                let columns = split(alloc, side(direction, area), spacing, &sizes, flex)?;
                let mut at: usize = 0;
                'placing: for part in parts {
                    let column = columns[at];
                    let place = part_area(direction, area, column);
                    part.into_pane().place(alloc, place, scene)?;
                    at += 1;
                }
                Ok(())
            }
        }
    }
}
