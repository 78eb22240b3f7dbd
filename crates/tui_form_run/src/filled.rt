//! The initial value of a field, and whether the field is needed.

ghost use Rattle.std.specs.Prelude.{◌≡◌, IfOk, Some, map, option_map, string_bytes};
ghost use Rattle.serde_json.specs.View.{view};
ghost use Rattle.tui_form_run.specs.Input.{check_of, choice_of, initial_choice, filled_of, place_of, initial_text, typed_text_of};
ghost use Rattle.tui_form_run.specs.Filled.{filled_data};
ghost use Rattle.tui_form_run.specs.Refusals.{bad_form};
ghost use Rattle.tui_json.specs.Refusals.{Gives, or_reject};

use crate::bad_form::BadForm;
use crate::field_kind::FieldKind;
use crate::key::FormKey;
use crate::texts::Texts;
use serde_json::Value as Json;
use std::alloc::Global;
use tui_cells::Mem;
use tui_form_lib::Value;
use tui_input::InputState;
use tui_json::{InputError, Within, optional, required};

/// The most characters of a text, if the form does not give `most`.
const MOST: u16 = 1000;

/// The initial value of a field, and whether the field is needed.
pub(crate) struct Filled {
    pub(crate) is_needed: bool,
    pub(crate) value: Value,
}

/// Reads the initial value of a field of this kind.
pub(crate) fn read_filled(
    alloc: Global,
    kind: FieldKind,
    number: usize,
    value: &Json,
) -> Result<Filled, InputError<BadForm>>
    ensures { Gives filled_data result (filled_of kind number (view value.now)) }
{
    match kind {
        FieldKind::Text => read_text(alloc, number, value),
        FieldKind::Choice => read_choice(alloc, number, value),
        FieldKind::Check => read_check(alloc, number, value),
    }
}

#[tactic(auto, unfolding(crate::specs::Input::typed_text_of))]
fn read_text(alloc: Global, number: usize, value: &Json) -> Result<Filled, InputError<BadForm>>
    ensures { Gives filled_data result (typed_text_of number (view value.now)) }
{
    let at = Some(number);
    let most: Option<Within<1, 1000>> = optional(alloc, at, FormKey::Most, value)?;
    let mask: Option<bool> = optional(alloc, at, FormKey::Mask, value)?;
    let needed: Option<bool> = optional(alloc, at, FormKey::Needed, value)?;
    let text: Option<&str> = optional(alloc, at, FormKey::Value, value)?;
    Ok(Filled {
        is_needed: needed.unwrap_or(false),
        value: Value::Text {
            input: initial_text(alloc, most, text)?,
            is_masked: mask.unwrap_or(false),
        },
    })
}

fn initial_text(alloc: Global, most: Option<Within<1, 1000>>, text: Option<&str>) -> Mem<InputState>
    ensures { IfOk result (λ input. input ≡ initial_text (option_map (λ n. n.0) most) (option_map (λ t. t.now) text.entry)) }
{
    let most = match most {
        Some(Within(most)) => most,
        None => MOST,
    };
    InputState::with_text(alloc, usize::from(most), text.unwrap_or(""))
}

#[tactic(auto, unfolding(crate::specs::Input::choice_of))]
fn read_choice(alloc: Global, number: usize, value: &Json) -> Result<Filled, InputError<BadForm>>
    ensures { Gives filled_data result (choice_of number (view value.now)) }
{
    let at = Some(number);
    let Texts(options) = required(alloc, at, FormKey::Of, value)?;
    let needed: Option<bool> = optional(alloc, at, FormKey::Needed, value)?;
    let text: Option<&str> = optional(alloc, at, FormKey::Value, value)?;
    let chosen = initial_choice(&options, number, text)?;
    Ok(Filled {
        is_needed: needed.unwrap_or(false),
        value: Value::Choice { options, chosen },
    })
}

/// Returns the index of the given text, if there is one. Rejects a text that is not one of these.
fn initial_choice(
    options: &[String],
    number: usize,
    text: Option<&str>,
) -> Result<Option<usize>, InputError<BadForm>>
    ensures { Gives (λ chosen. chosen) result
        (or_reject (bad_form (Some number) FormKey.Value) (initial_choice (map string_bytes options.now) (option_map (λ t. t.now) text.entry))) }
{
    match text {
        None => Ok(None),
        Some(text) => match place_of(options, text) {
            Some(place) => Ok(Some(place)),
            None => Err(InputError::Refused(BadForm {
                at: Some(number),
                key: FormKey::Value,
            })),
        },
    }
}

/// Returns the index of the first of these texts that equals `text`.
fn place_of(options: &[String], text: &str) -> Option<usize>
    ensures { result ≡ place_of text.now (map string_bytes options.now) }
{
    'texts: for i in 0..options.len() {
        if options[i].as_str() == text {
            return Some(i);
        }
    }
    None
}

#[tactic(auto, unfolding(crate::specs::Input::check_of))]
fn read_check(alloc: Global, number: usize, value: &Json) -> Result<Filled, InputError<BadForm>>
    ensures { Gives filled_data result (check_of number (view value.now)) }
{
    let at = Some(number);
    let needed: Option<bool> = optional(alloc, at, FormKey::Needed, value)?;
    let is_on: Option<bool> = optional(alloc, at, FormKey::Value, value)?;
    Ok(Filled {
        is_needed: needed.unwrap_or(false),
        value: Value::Check(is_on.unwrap_or(false)),
    })
}
