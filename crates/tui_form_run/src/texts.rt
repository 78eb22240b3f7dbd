//! Kinds of strings in the JSON of a form.

use crate::key::FormKey;
use serde_json::Value;
use std::alloc::Global;
use tui_cells::Mem;
use tui_json::{Counted, Explains, Fault, Kind, KindError, Wanted, each, elements_fault};

/// A string, copied from the JSON.
impl<'v> Kind<'v, FormKey> for String {
    ghost use Rattle.std.specs.Prelude.{ℕ, List, string_bytes};
    ghost use Rattle.serde_json.specs.Find.{as_str};

    ghost AsData = { List ℕ };

    ghost as_data = { string_bytes };

    ghost kind = { as_str };

    fn read(alloc: Global, value: &'v Value) -> Result<String, KindError> {
        match value.as_str() {
            Some(text) => Ok(String::from_str(alloc, text)?),
            None => Err(KindError::WrongKind),
        }
    }
}

impl<'v> Explains<'v, FormKey> for String {
    ghost use Rattle.std.specs.Prelude.{codes};
    ghost use Rattle.tui_json.specs.Faults.{no_parts, words};

    ghost wanted = { words (codes "a string") };

    ghost part_fault = { no_parts };

    fn wanted() -> Wanted<'v> {
        Wanted::Words("a string")
    }

    fn part_fault(_alloc: Global, _value: &'v Value) -> Mem<Option<Fault<'v>>> {
        Ok(None)
    }
}

/// A string of 1 to 64 bytes.
#[derive(Drop)]
pub(crate) struct NameText<'v>(pub(crate) &'v str);

impl<'v> Kind<'v, FormKey> for NameText<'v> {
    ghost use Rattle.std.specs.Prelude.{ℕ, List};
    ghost use Rattle.tui_form_run.specs.Input.{name_text};

    ghost AsData = { List ℕ };

    ghost as_data = { λ name. name.0.now };

    ghost kind = { name_text };

    fn read(_alloc: Global, value: &'v Value) -> Result<NameText<'v>, KindError> {
        match value.as_str() {
            Some(text) if 1 <= text.len() && text.len() <= 64 => Ok(NameText(text)),
            _ => Err(KindError::WrongKind),
        }
    }
}

impl<'v> Explains<'v, FormKey> for NameText<'v> {
    ghost use Rattle.tui_json.specs.Faults.{no_parts, text};

    ghost wanted = { text 1 64 };

    ghost part_fault = { no_parts };

    fn wanted() -> Wanted<'v> {
        Wanted::Text(1, 64)
    }

    fn part_fault(_alloc: Global, _value: &'v Value) -> Mem<Option<Fault<'v>>> {
        Ok(None)
    }
}

/// An array of 1 to 100 strings, copied from the JSON.
#[derive(Drop)]
pub(crate) struct Texts(pub(crate) Vec<String>);

impl<'v> Kind<'v, FormKey> for Texts {
    ghost use Rattle.std.specs.Prelude.{ℕ, List, map, string_bytes};
    ghost use Rattle.tui_form_run.specs.Input.{texts_of};

    ghost AsData = { List (List ℕ) };

    ghost as_data = { λ texts. map string_bytes texts.0.items };

    ghost kind = { texts_of };

    #[tactic(auto, unfolding(crate::specs::Input::texts_of))]
    fn read(alloc: Global, value: &'v Value) -> Result<Texts, KindError> {
        let Counted(values) = <Counted<'v, 1, 100> as Kind<'v, FormKey>>::read(alloc, value)?;
        Ok(Texts(each::<String, FormKey>(alloc, values)?))
    }
}

impl<'v> Explains<'v, FormKey> for Texts {
    ghost use Rattle.std.specs.Prelude.{codes};
    ghost use Rattle.tui_form_run.specs.Faults.{string_fault};
    ghost use Rattle.tui_json.specs.Faults.{elements_fault, values};

    ghost wanted = { values 1 100 (codes "strings") };

    ghost part_fault = { elements_fault string_fault };

    fn wanted() -> Wanted<'v> {
        Wanted::Values(1, 100, "strings")
    }

    fn part_fault(alloc: Global, value: &'v Value) -> Mem<Option<Fault<'v>>> {
        elements_fault::<String, FormKey>(alloc, value)
    }
}
