//! Where a rejected form has the value that is not valid.

ghost use Rattle.std.specs.Prelude.{◌≡◌, IfOk, option_map, string_bytes};
ghost use Rattle.serde_json.specs.View.{view};
ghost use Rattle.tui_form_run.specs.Faults.{field_fault, form_fault, key_fault};
ghost use Rattle.tui_json.specs.Explanation.{explanation};
ghost use Rattle.tui_json.specs.Faults.{fault_data};

use crate::bad_form::BadForm;
use crate::field_kind::FieldKind;
use crate::key::FormKey;
use crate::texts::{NameText, Texts};
use serde_json::Value;
use std::alloc::Global;
use tui_cells::Mem;
use tui_json::{
    ByName, Fault, Objects, Within, by_name, explain, inside_at, member_fault, not_allowed,
    optional_member_fault, value_at,
};

/// Returns what is wrong with a form that was rejected, in words: where the value is, what is wanted there, and what is
/// there. Fails with `NoMemory` if there is no memory for the text.
pub fn explain_form(alloc: Global, value: &Value, bad: BadForm) -> Mem<Option<String>>
    ensures { IfOk result (λ text. option_map string_bytes text ≡ option_map explanation (form_fault bad (view value.now))) }
{
    explain(alloc, form_fault(alloc, value, bad)?)
}

fn form_fault<'v>(alloc: Global, value: &'v Value, bad: BadForm) -> Mem<Option<Fault<'v>>>
    ensures { IfOk result (λ found. option_map fault_data found ≡ form_fault bad (view value.now)) }
{
    match bad.at {
        None => key_fault(alloc, value, bad.key),
        Some(number) => {
            let found = match value_at(value, "fields", number) {
                Some(field) => field_fault(alloc, field, bad.key)?,
                None => None,
            };
            inside_at(found, "fields", number)
        }
    }
}

/// Returns the fault of a key of the form.
fn key_fault<'v>(alloc: Global, value: &'v Value, key: FormKey) -> Mem<Option<Fault<'v>>>
    ensures { IfOk result (λ found. option_map fault_data found ≡ key_fault key (view value.now)) }
{
    match key {
        FormKey::Title => member_fault::<String, FormKey>(alloc, value, "title"),
        FormKey::Fields => member_fault::<Objects<'v, 1, 64>, FormKey>(alloc, value, "fields"),
        _ => Ok(None),
    }
}

/// Returns the fault of a key of a field.
fn field_fault<'v>(alloc: Global, value: &'v Value, key: FormKey) -> Mem<Option<Fault<'v>>>
    ensures { IfOk result (λ found. option_map fault_data found ≡ field_fault key (view value.now)) }
{
    match key {
        FormKey::Name => name_fault(alloc, value),
        FormKey::Label => member_fault::<String, FormKey>(alloc, value, "label"),
        FormKey::Kind => member_fault::<ByName<FieldKind>, FormKey>(alloc, value, "kind"),
        FormKey::Most => optional_member_fault::<Within<1, 1000>, FormKey>(alloc, value, "most"),
        FormKey::Mask => optional_member_fault::<bool, FormKey>(alloc, value, "mask"),
        FormKey::Needed => optional_member_fault::<bool, FormKey>(alloc, value, "needed"),
        FormKey::Of => member_fault::<Texts, FormKey>(alloc, value, "of"),
        FormKey::Value => value_fault(alloc, value),
        FormKey::Title | FormKey::Fields => Ok(None),
    }
}

fn name_fault<'v>(alloc: Global, value: &'v Value) -> Mem<Option<Fault<'v>>>
    ensures { IfOk result (λ found. option_map fault_data found ≡ field_fault FormKey.Name (view value.now)) }
{
    match member_fault::<NameText<'v>, FormKey>(alloc, value, "name")? {
        Some(fault) => Ok(Some(fault)),
        None => not_allowed(alloc, value, "name", "a name that no field before it has"),
    }
}

/// Returns the fault of the value of a field, by the kind of the field.
fn value_fault<'v>(alloc: Global, value: &'v Value) -> Mem<Option<Fault<'v>>>
    ensures { IfOk result (λ found. option_map fault_data found ≡ field_fault FormKey.Value (view value.now)) }
{
    let kind = match value.get("kind") {
        Some(name) => by_name::<FieldKind, FormKey>(name),
        None => None,
    };
    match kind {
        Some(FieldKind::Check) => optional_member_fault::<bool, FormKey>(alloc, value, "value"),
        Some(FieldKind::Text) => optional_member_fault::<String, FormKey>(alloc, value, "value"),
        Some(FieldKind::Choice) => match optional_member_fault::<String, FormKey>(
            alloc, value, "value",
        )? {
            Some(fault) => Ok(Some(fault)),
            None => not_allowed(alloc, value, "value", "one of the strings in `of`"),
        },
        None => Ok(None),
    }
}
