//! Objects.

ghost use Rattle.std.specs.Prelude.{◌≡◌};
ghost use Rattle.serde_json.specs.View.{items_view};
ghost use Rattle.tui_json.specs.Objects.{are_objects};

use crate::array::Counted;
use crate::explains::{Explains, elements_fault};
use crate::fault::Fault;
use crate::kind::{Kind, KindError};
use crate::wanted::Wanted;
use serde_json::Value;
use std::alloc::Global;
use tui_cells::Mem;

/// A value that is an object. Reading it does not allocate.
#[derive(Drop)]
pub struct Object<'v>(pub &'v Value);

impl<'v, F> Kind<'v, F> for Object<'v> {
    ghost use Rattle.serde_json.specs.Data.{Data};
    ghost use Rattle.serde_json.specs.View.{view};
    ghost use Rattle.tui_json.specs.Objects.{object_of};

    ghost AsData = { Data };

    ghost as_data = { λ object. view object.0.now };

    ghost kind = { object_of };

    fn read(_alloc: Global, value: &'v Value) -> Result<Object<'v>, KindError> {
        if value.is_object() {
            Ok(Object(value))
        } else {
            Err(KindError::WrongKind)
        }
    }
}

impl<'v, F> Explains<'v, F> for Object<'v> {
    ghost use Rattle.std.specs.Prelude.{codes};
    ghost use Rattle.tui_json.specs.Faults.{no_parts, words};

    ghost wanted = { words (codes "an object") };

    ghost part_fault = { no_parts };

    fn wanted() -> Wanted<'v> {
        Wanted::Words("an object")
    }

    fn part_fault(_alloc: Global, _value: &'v Value) -> Mem<Option<Fault<'v>>> {
        Ok(None)
    }
}

/// The values of an array of at least `LEAST` and at most `MOST` objects. Reading it does not allocate.
#[derive(Drop)]
pub struct Objects<'v, const LEAST: usize, const MOST: usize>(pub &'v [Value]);

impl<'v, F, const LEAST: usize, const MOST: usize> Kind<'v, F> for Objects<'v, LEAST, MOST> {
    ghost use Rattle.serde_json.specs.Data.{Items};
    ghost use Rattle.serde_json.specs.View.{items_view};
    ghost use Rattle.tui_json.specs.Objects.{objects_within};

    ghost AsData = { Items };

    ghost as_data = { λ objects. items_view objects.0.now };

    ghost kind = { objects_within LEAST MOST };

    fn read(alloc: Global, value: &'v Value) -> Result<Objects<'v, LEAST, MOST>, KindError> {
        let Counted(values) = <Counted<'v, LEAST, MOST> as Kind<'v, F>>::read(alloc, value)?;
        if are_objects(values) {
            Ok(Objects(values))
        } else {
            Err(KindError::WrongKind)
        }
    }
}

impl<'v, F, const LEAST: usize, const MOST: usize> Explains<'v, F> for Objects<'v, LEAST, MOST> {
    ghost use Rattle.std.specs.Prelude.{codes};
    ghost use Rattle.tui_json.specs.Faults.{elements_fault, fault_of, no_parts, values, words};
    ghost use Rattle.tui_json.specs.Objects.{object_of};

    ghost wanted = { values LEAST MOST (codes "objects") };

    ghost part_fault = { elements_fault (fault_of object_of (words (codes "an object")) no_parts) };

    fn wanted() -> Wanted<'v> {
        Wanted::Values(LEAST, MOST, "objects")
    }

    fn part_fault(alloc: Global, value: &'v Value) -> Mem<Option<Fault<'v>>> {
        elements_fault::<Object<'v>, F>(alloc, value)
    }
}

#[tactic(auto, using(crate::proofs::Listed::objects_more, crate::proofs::Listed::no_object, crate::proofs::Listed::all_objects))]
fn are_objects(values: &[Value]) -> bool
    ensures { result ≡ are_objects (items_view values.now) }
{
    'values: for value in values {
        if !value.is_object() {
            return false;
        }
    }
    true
}
