//! Modifiers: arrays of names.

ghost use Rattle.std.specs.Prelude.{◌≡◌};
ghost use Rattle.serde_json.specs.View.{view, items_view};
ghost use Rattle.tui_cells.specs.Style.{both_modifiers, no_modifier};
ghost use Rattle.tui_schema.specs.Kinds.Joined.{joined_of};
ghost use Rattle.tui_schema.specs.Kinds.Modifier.{modifier_named, modifiers_of};

use crate::field::Field;
use crate::kinds::member::elements_fault;
use serde_json::Value;
use std::alloc::Global;
use tui_cells::{Mem, Modifier};
use tui_json::{Explains, Fault, Kind, KindError, Wanted, elements};

#[tactic(auto, unfolding(crate::specs::Kinds::Modifier::modifier_named))]
fn named_modifier(value: &Value) -> Option<Modifier>
    ensures { result ≡ modifier_named (view value.now) }
{
    match value.as_str()? {
        "bold" => Some(Modifier::BOLD),
        "dim" => Some(Modifier::DIM),
        "italic" => Some(Modifier::ITALIC),
        "underlined" => Some(Modifier::UNDERLINED),
        "slow_blink" => Some(Modifier::SLOW_BLINK),
        "rapid_blink" => Some(Modifier::RAPID_BLINK),
        "reversed" => Some(Modifier::REVERSED),
        "hidden" => Some(Modifier::HIDDEN),
        "crossed_out" => Some(Modifier::CROSSED_OUT),
        _ => None,
    }
}

fn all_modifiers(names: &[Value]) -> Option<Modifier>
    ensures { result ≡ joined_of both_modifiers modifier_named no_modifier (items_view names.now) }
{
    let mut modifiers = Modifier::empty();
    for name in names {
        modifiers = modifiers.union(named_modifier(name)?);
    }
    Some(modifiers)
}

impl<'v> Kind<'v, Field> for Modifier {
    ghost use Rattle.tui_cells.specs.declared.modifier.Modifier.{Modifier};

    ghost AsData = { Modifier };

    ghost as_data = { λ modifier. modifier };

    ghost kind = { modifiers_of };

    #[tactic(auto, unfolding(crate::specs::Kinds::Modifier::modifiers_of))]
    fn read(_alloc: Global, value: &'v Value) -> Result<Modifier, KindError> {
        all_modifiers(elements(value)?).ok_or(KindError::WrongKind)
    }
}

impl<'v> Explains<'v, Field> for Modifier {
    ghost use Rattle.tui_schema.specs.Faults.{an_array, modifiers_parts};

    ghost wanted = { an_array };

    ghost part_fault = { modifiers_parts };

    fn wanted() -> Wanted<'v> {
        Wanted::Words("an array")
    }

    #[tactic(auto, unfolding(crate::specs::Faults::modifiers_parts))]
    fn part_fault(alloc: Global, value: &'v Value) -> Mem<Option<Fault<'v>>> {
        elements_fault::<ModifierName>(alloc, value)
    }
}

/// A name in such an array.
#[derive(Drop)]
struct ModifierName(Modifier);

impl<'v> Kind<'v, Field> for ModifierName {
    ghost use Rattle.tui_cells.specs.declared.modifier.Modifier.{Modifier};

    ghost AsData = { Modifier };

    ghost as_data = { λ name. name.0 };

    ghost kind = { modifier_named };

    fn read(_alloc: Global, value: &'v Value) -> Result<ModifierName, KindError> {
        match named_modifier(value) {
            Some(value) => Ok(ModifierName(value)),
            None => Err(KindError::WrongKind),
        }
    }
}

impl<'v> Explains<'v, Field> for ModifierName {
    ghost use Rattle.tui_json.specs.Faults.{no_parts};
    ghost use Rattle.tui_schema.specs.Faults.{a_modifier};

    ghost wanted = { a_modifier };

    ghost part_fault = { no_parts };

    fn wanted() -> Wanted<'v> {
        Wanted::Words(
            "`bold`, `dim`, `italic`, `underlined`, `slow_blink`, `rapid_blink`, `reversed`, `hidden` \
             or `crossed_out`",
        )
    }

    fn part_fault(_alloc: Global, _value: &'v Value) -> Mem<Option<Fault<'v>>> {
        Ok(None)
    }
}
