//! Sets of borders: arrays of sides.

ghost use Rattle.std.specs.Prelude.{◌≡◌};
ghost use Rattle.serde_json.specs.View.{view, items_view};
ghost use Rattle.tui_frames.specs.Borders.{borders_of, both_borders};
ghost use Rattle.tui_schema.specs.Kinds.Borders.{side_named, sides_of};
ghost use Rattle.tui_schema.specs.Kinds.Joined.{joined_of};

use crate::field::Field;
use crate::kinds::member::elements_fault;
use serde_json::Value;
use std::alloc::Global;
use tui_cells::Mem;
use tui_frames::Borders;
use tui_json::{Explains, Fault, Kind, KindError, Wanted, elements};

#[tactic(auto, unfolding(crate::specs::Kinds::Borders::side_named))]
fn named_side(value: &Value) -> Option<Borders>
    ensures { result ≡ side_named (view value.now) }
{
    match value.as_str()? {
        "top" => Some(Borders::TOP),
        "right" => Some(Borders::RIGHT),
        "bottom" => Some(Borders::BOTTOM),
        "left" => Some(Borders::LEFT),
        _ => None,
    }
}

fn all_sides(names: &[Value]) -> Option<Borders>
    ensures { result ≡ joined_of both_borders side_named (borders_of 0) (items_view names.now) }
{
    let mut sides = Borders::NONE;
    for name in names {
        sides = sides.union(named_side(name)?);
    }
    Some(sides)
}

impl<'v> Kind<'v, Field> for Borders {
    ghost use Rattle.tui_frames.specs.declared.borders.Borders.{Borders};

    ghost AsData = { Borders };

    ghost as_data = { λ borders. borders };

    ghost kind = { sides_of };

    #[tactic(auto, unfolding(crate::specs::Kinds::Borders::sides_of))]
    fn read(_alloc: Global, value: &'v Value) -> Result<Borders, KindError> {
        all_sides(elements(value)?).ok_or(KindError::WrongKind)
    }
}

impl<'v> Explains<'v, Field> for Borders {
    ghost use Rattle.tui_schema.specs.Faults.{an_array, borders_parts};

    ghost wanted = { an_array };

    ghost part_fault = { borders_parts };

    fn wanted() -> Wanted<'v> {
        Wanted::Words("an array")
    }

    #[tactic(auto, unfolding(crate::specs::Faults::borders_parts))]
    fn part_fault(alloc: Global, value: &'v Value) -> Mem<Option<Fault<'v>>> {
        elements_fault::<Side>(alloc, value)
    }
}

/// A side in such an array.
#[derive(Drop)]
struct Side(Borders);

impl<'v> Kind<'v, Field> for Side {
    ghost use Rattle.tui_frames.specs.declared.borders.Borders.{Borders};

    ghost AsData = { Borders };

    ghost as_data = { λ name. name.0 };

    ghost kind = { side_named };

    fn read(_alloc: Global, value: &'v Value) -> Result<Side, KindError> {
        match named_side(value) {
            Some(value) => Ok(Side(value)),
            None => Err(KindError::WrongKind),
        }
    }
}

impl<'v> Explains<'v, Field> for Side {
    ghost use Rattle.tui_json.specs.Faults.{no_parts};
    ghost use Rattle.tui_schema.specs.Faults.{a_border_side};

    ghost wanted = { a_border_side };

    ghost part_fault = { no_parts };

    fn wanted() -> Wanted<'v> {
        Wanted::Words("`top`, `right`, `bottom` or `left`")
    }

    fn part_fault(_alloc: Global, _value: &'v Value) -> Mem<Option<Fault<'v>>> {
        Ok(None)
    }
}
