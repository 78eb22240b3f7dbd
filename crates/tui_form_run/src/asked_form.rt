//! The form that a run asks with.

ghost use Rattle.serde_json.specs.View.{view};
ghost use Rattle.tui_form_lib.specs.Form.{form_data};
ghost use Rattle.tui_form_run.specs.Asked.{IsAskedWith, form_reader};
ghost use Rattle.tui_form_run.specs.Input.{form_of};
ghost use Rattle.tui_json.specs.Refusals.{Gives};
ghost use Rattle.tui_program.specs.Input.{Reaches};
ghost use Rattle.tui_system.specs.Commands.{ComesTo};

use crate::arguments::FormFiles;
use crate::bad_form::BadForm;
use crate::faults::explain_form;
use crate::reading::form_of;
use serde_json::Value;
use tui_form_lib::Form;
use tui_json::InputError;
use tui_program::{Outcome, json_or_explain};
use tui_system::{FileCommand, NamedFile, System, read_for_command};

/// A form, and the files that it was named with.
#[derive(Drop)]
pub(crate) struct AskedForm {
    pub(crate) files: FormFiles,
    pub(crate) form: Form,
}

/// Reads the form that the arguments name.
pub(crate) fn read_form<S: System>(system: &S) -> Outcome<AskedForm, BadForm>
    ensures { Reaches (ComesTo (S.gives system.now) form_reader) IsAskedWith result }
{
    let (files, bytes) = read_for_command::<FormFiles, BadForm, S>(system)?;
    let name = files.file();
    let value = json_or_explain(system.alloc(), bytes, &NamedFile { system, name })?;
    let form = form_or_explain(system, name, &value)?;
    Ok(AskedForm { files, form })
}

/// Reads a form. If it is rejected, a line on standard error says what is wrong with it.
fn form_or_explain<S: System>(
    system: &S,
    name: &str,
    value: &Value,
) -> Result<Form, InputError<BadForm>>
    ensures { Gives form_data result (form_of (view value.now)) }
{
    let read = form_of(system.alloc(), value);
    if let Err(InputError::Refused(bad)) = &read {
        explain_refusal(system, name, value, *bad);
    }
    read
}

/// Writes what is wrong with a form that is rejected. Writes nothing if there is no memory for the text.
fn explain_refusal<S: System>(system: &S, name: &str, value: &Value, bad: BadForm) {
    if let Ok(Some(text)) = explain_form(system.alloc(), value, bad) {
        system.explain(name, text.as_str());
    }
}
