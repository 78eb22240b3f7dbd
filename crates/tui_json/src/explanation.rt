//! What is wrong with a value, in words.

ghost use Rattle.std.specs.Prelude.{◌≡◌, IfOk, map, option_map, string_bytes};
ghost use Rattle.serde_json.specs.Data.{string};
ghost use Rattle.serde_json.specs.Events.{items_len};
ghost use Rattle.serde_json.specs.View.{items_view, view};
ghost use Rattle.tui_json.specs.Explanation.{explanation, found_text, path_text, place_text, wanted_text, with_step};
ghost use Rattle.tui_json.specs.Faults.{fault_data, step_data, wanted_data};

use crate::fault::{Fault, Step};
use crate::wanted::Wanted;
use serde_json::Value;
use std::alloc::Global;
use tui_cells::Mem;

/// The longest string that is shown, in bytes.
const LONGEST: usize = 64;

/// Returns a fault in words, if there is one: its path, what is wanted there, and what is there, such as
/// `fields[0].kind: expected text, choice or check, found the string "txt"`. Fails with `NoMemory` if there is
/// no memory for the text.
pub fn explain(alloc: Global, fault: Option<Fault<'_>>) -> Mem<Option<String>>
    ensures { IfOk result (λ text. option_map string_bytes text ≡ option_map explanation (option_map fault_data fault.entry)) }
{
    match fault {
        Some(fault) => Ok(Some(fault_text(alloc, &fault)?)),
        None => Ok(None),
    }
}

#[tactic(auto, unfolding(crate::specs::Explanation::explanation))]
fn fault_text(alloc: Global, fault: &Fault<'_>) -> Mem<String>
    ensures { IfOk result (λ text. string_bytes text ≡ explanation (fault_data fault.now)) }
{
    let place = place_text(alloc, &fault.steps)?;
    let wanted = wanted_text(alloc, fault.wanted)?;
    match fault.found {
        Some(value) => {
            let found = found_text(alloc, value)?;
            Ok(format!(in alloc; "{place}: expected {wanted}, found {found}")?)
        }
        None => Ok(format!(in alloc; "{place} is missing; expected {wanted}")?),
    }
}

fn place_text(alloc: Global, steps: &[Step<'_>]) -> Mem<String>
    ensures { IfOk result (λ text. string_bytes text ≡ place_text (map step_data steps.now)) }
{
    if steps.is_empty() {
        Ok(String::from_str(alloc, "the input")?)
    } else {
        path_text(alloc, steps)
    }
}

/// Returns the path of these steps, the last one first.
#[tactic(auto, unfolding(crate::specs::Explanation::path_text))]
fn path_text(alloc: Global, steps: &[Step<'_>]) -> Mem<String>
    ensures { IfOk result (λ text. string_bytes text ≡ path_text (map step_data steps.now)) }
{
    match steps.split_first() {
        Some((last, before)) => with_step(alloc, &path_text(alloc, before)?, *last),
        None => Ok(String::new(alloc)),
    }
}

fn with_step(alloc: Global, path: &str, step: Step<'_>) -> Mem<String>
    ensures { IfOk result (λ text. string_bytes text ≡ with_step path.now (step_data step.entry)) }
{
    match step {
        Step::Key(name) if path.is_empty() => Ok(String::from_str(alloc, name)?),
        Step::Key(name) => Ok(format!(in alloc; "{path}.{name}")?),
        Step::Index(index) => Ok(format!(in alloc; "{path}[{index}]")?),
    }
}

fn wanted_text(alloc: Global, wanted: Wanted<'_>) -> Mem<String>
    ensures { IfOk result (λ text. string_bytes text ≡ wanted_text (wanted_data wanted.entry)) }
{
    match wanted {
        Wanted::Words(words) => Ok(String::from_str(alloc, words)?),
        Wanted::Number(least, most) => {
            Ok(format!(in alloc; "a whole number from {least} to {most}")?)
        }
        Wanted::Text(least, most) => Ok(format!(in alloc; "a string of {least} to {most} bytes")?),
        Wanted::Values(least, most, of) => Ok(format!(in alloc;
            "an array of {least} to {most} {of}"
        )?),
    }
}

fn found_text(alloc: Global, value: &Value) -> Mem<String>
    ensures { IfOk result (λ text. string_bytes text ≡ found_text (view value.now)) }
{
    match value {
        Value::Null => Ok(String::from_str(alloc, "null")?),
        Value::Bool(_) => Ok(value.to_string(alloc)?),
        Value::Number(number) if number.is_f64() => {
            Ok(String::from_str(alloc, "a number with a fraction or an exponent")?)
        }
        Value::Number(_) => {
            let digits = value.to_string(alloc)?;
            Ok(format!(in alloc; "the number {digits}")?)
        }
        Value::String(text) => found_string(alloc, value, text.as_str()),
        Value::Array(values) => {
            let length = count(values.as_slice());
            Ok(format!(in alloc; "an array of length {length}")?)
        }
        Value::Object(_) => Ok(String::from_str(alloc, "an object")?),
    }
}

/// Returns how many values there are.
#[tactic(auto, using(crate::proofs::Words::items_length))]
fn count(values: &[Value]) -> usize
    ensures { result ≡ items_len (items_view values.now) }
{
    values.len()
}

/// Returns a string in quotes, or how long it is. `text` is the string that the value is.
fn found_string(alloc: Global, value: &Value, text: &str) -> Mem<String>
    requires { view value.now ≡ string text.now }
    ensures { IfOk result (λ found. string_bytes found ≡ found_text (view value.now)) }
{
    let length = text.len();
    if length <= LONGEST {
        let quoted = value.to_string(alloc)?;
        Ok(format!(in alloc; "the string {quoted}")?)
    } else {
        Ok(format!(in alloc; "a string of {length} bytes")?)
    }
}
