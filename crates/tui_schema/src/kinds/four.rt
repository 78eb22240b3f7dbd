//! Arrays of four numbers.

ghost use Rattle.serde_json.specs.View.{view};
ghost use Rattle.tui_json.specs.Kinds.{Reads};
ghost use Rattle.tui_schema.specs.Kinds.Four.{four_of};

use crate::kinds::member::read;
use serde_json::Value;
use std::alloc::Global;
use tui_json::{KindError, elements};

/// Reads an array of four numbers.
#[tactic(auto, using(crate::proofs::Arrays::four_other), unfolding(crate::specs::Kinds::Four::four_of))]
pub(crate) fn read_four(alloc: Global, value: &Value) -> Result<(u16, u16, u16, u16), KindError>
    ensures { Reads (λ four. four) result (four_of (view value.now)) }
{
    let [first, second, third, fourth] = elements(value)? else {
        return Err(KindError::WrongKind);
    };
    let first = read(alloc, first)?;
    let second = read(alloc, second)?;
    let third = read(alloc, third)?;
    Ok((first, second, third, read(alloc, fourth)?))
}
