//! How a split is cut.

ghost use Rattle.serde_json.specs.View.{view};
ghost use Rattle.tui_json.specs.Refusals.{Gives};
ghost use Rattle.tui_panes_run.specs.Tree.{shape_in};

use crate::field::PaneField;
use crate::refusal::PanesRefusal;
use serde_json::Value;
use std::alloc::Global;
use tui_json::{InputError, optional, optional_named};
use tui_layout::{Direction, Flex};

/// How a split is cut, except for the sizes of its parts.
#[derive(Clone, Copy)]
pub(crate) struct Shape {
    pub(crate) direction: Direction,
    pub(crate) spacing: u16,
    pub(crate) flex: Flex,
}

/// Reads the shape of the split of this number. A field that is absent or null is Horizontal, 0 or Start.
#[tactic(auto, unfolding(crate::specs::Tree::shape_in))]
pub(crate) fn read_shape(
    alloc: Global,
    number: usize,
    value: &Value,
) -> Result<Shape, InputError<PanesRefusal>>
    ensures { Gives (λ shape. shape) result (shape_in number (view value.now)) }
{
    let at = Some(number);
    let direction: Option<Direction> = optional_named(alloc, at, PaneField::Direction, value)?;
    let spacing: Option<u16> = optional(alloc, at, PaneField::Spacing, value)?;
    let flex: Option<Flex> = optional_named(alloc, at, PaneField::Flex, value)?;
    Ok(Shape {
        direction: direction.unwrap_or(Direction::Horizontal),
        spacing: spacing.unwrap_or(0),
        flex: flex.unwrap_or(Flex::Start),
    })
}
