//! The JSON of a form.

ghost use Rattle.std.specs.Prelude.{◌≡◌, map, string_bytes};
ghost use Rattle.serde_json.specs.View.{items_view, view};
ghost use Rattle.tui_form_lib.specs.Form.{form_data};
ghost use Rattle.tui_form_run.specs.Input.{form_of, has_name, is_taken, name_of};
ghost use Rattle.tui_json.specs.Refusals.{Gives};

use crate::bad_form::BadForm;
use crate::field_kind::FieldKind;
use crate::filled::{Filled, read_filled};
use crate::key::FormKey;
use crate::texts::NameText;
use serde_json::Value;
use std::alloc::Global;
use tui_form_lib::{Form, FormField};
use tui_json::{ByName, InputError, Numbered, Objects, each_numbered, required};

/// Reads a form from a JSON value (docs/PROGRAMS.md). The form is open, with the focus on its first field. Rejects the
/// first key that is required and missing, or whose value is not valid: a key of the form, or of the field of an index.
#[tactic(auto, unfolding(crate::specs::Input::form_of))]
pub fn form_of<'v>(alloc: Global, value: &'v Value) -> Result<Form, InputError<BadForm>>
    ensures { Gives form_data result (form_of (view value.now)) }
{
    let title: String = required(alloc, None, FormKey::Title, value)?;
    let Objects(values): Objects<'v, 1, 64> = required(alloc, None, FormKey::Fields, value)?;
    let fields = each_numbered::<FormField, FormKey>(alloc, values, values)?;
    Ok(Form::new(title, fields))
}

impl<'v> Numbered<'v, FormKey> for FormField {
    ghost use Rattle.tui_form_lib.specs.Field.{FieldData, field_data};
    ghost use Rattle.tui_form_run.specs.Input.{field_of};

    type Context = &'v [Value];

    ghost AsData = { FieldData };

    ghost as_data = { field_data };

    ghost tests = { λ known. field_of (items_view known.now) };

    #[tactic(auto, unfolding(crate::specs::Input::field_of))]
    fn read(
        alloc: Global,
        known: &'v [Value],
        number: usize,
        value: &'v Value,
    ) -> Result<FormField, InputError<BadForm>> {
        let name = read_name(alloc, known, number, value)?;
        let at = Some(number);
        let label: String = required(alloc, at, FormKey::Label, value)?;
        let ByName(kind): ByName<FieldKind> = required(alloc, at, FormKey::Kind, value)?;
        let Filled { is_needed, value } = read_filled(alloc, kind, number, value)?;
        Ok(FormField {
            name,
            label,
            is_needed,
            value,
        })
    }
}

/// Reads the name of the field at index `number` among these values. Rejects the name of a field before it.
#[tactic(auto, using(crate::proofs::Taken::firsts_within), unfolding(crate::specs::Input::name_of))]
fn read_name(
    alloc: Global,
    values: &[Value],
    number: usize,
    value: &Value,
) -> Result<String, InputError<BadForm>>
    ensures { Gives string_bytes result (name_of (items_view values.now) number (view value.now)) }
{
    let at = Some(number);
    let NameText(name): NameText<'_> = required(alloc, at, FormKey::Name, value)?;
    let before = &values[..number.min(values.len())];
    if is_taken(before, name) {
        return Err(InputError::Refused(BadForm {
            at,
            key: FormKey::Name,
        }));
    }
    Ok(String::from_str(alloc, name)?)
}

/// Returns whether one of these values has a name.
#[tactic(auto, using(crate::proofs::Taken::none_yet, crate::proofs::Taken::one_has, crate::proofs::Taken::none_has))]
fn is_taken(values: &[Value], name: &str) -> bool
    ensures { result ≡ is_taken name.now (items_view values.now) }
{
    'values: for value in values {
        if has_name(value, name) {
            return true;
        }
    }
    false
}

fn has_name(value: &Value, name: &str) -> bool
    ensures { result ≡ has_name name.now (view value.now) }
{
    match value.get(FormKey::Name.name()) {
        Some(member) => member.as_str() == Some(name),
        None => false,
    }
}
