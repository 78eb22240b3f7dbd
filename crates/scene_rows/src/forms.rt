//! Rows of forms: what a form shows for the reads of a terminal, and its answers.

use crate::members::{check_keys, member};
use crate::sessions::write_screens;
use anyhow::{Result, bail};
use serde_json::Value;
use std::alloc::Global;
use std::io::Write;
use tui_form_lib::{Form, Outcome};
use tui_form_run::{BadForm, form_of, write_answers_line};
use tui_io::MemSink;
use tui_json::InputError;
use tui_program::write_refused_field;

/// The most bytes of the answers.
const ROOM: usize = 65_536;

/// Shows a form on a terminal of `width` columns and `height` rows. Writes the rows of the first screen, and of the one after each of `reads` up to the one that
/// ends it; then how far the form is, and its answers, if it is accepted. Of a form that is rejected it writes the line that says so.
pub(crate) fn show_form<W: Write>(alloc: Global, asking: &Value, out: &mut W) -> Result<()> {
    check_keys(asking, &["width", "height", "form", "reads"])?;
    let Some(form) = member(asking, "form") else {
        bail!("no form");
    };
    match form_of(alloc, form) {
        Ok(form) => ask(alloc, form, asking, out),
        Err(InputError::Refused(bad)) => refuse(alloc, bad, out),
        Err(InputError::NoMemory) => bail!("no memory for the form"),
    }
}

fn ask<W: Write>(alloc: Global, form: Form, asking: &Value, out: &mut W) -> Result<()> {
    let mut form = form;
    write_screens(alloc, &mut form, asking, out)?;
    match form.outcome() {
        Outcome::Open => writeln!(out, "open")?,
        Outcome::Left => writeln!(out, "left")?,
        Outcome::Accepted => answer(alloc, &form, out)?,
    }
    Ok(())
}

fn answer<W: Write>(alloc: Global, form: &Form, out: &mut W) -> Result<()> {
    let mut sink = MemSink::new(alloc, ROOM, Vec::new(alloc))?;
    if write_answers_line::<BadForm, MemSink>(alloc, form.fields(), &mut sink).is_err() {
        bail!("no room for the answers");
    }
    write!(out, "accepted ")?;
    out.write_all(sink.bytes())?;
    Ok(())
}

fn refuse<W: Write>(alloc: Global, bad: BadForm, out: &mut W) -> Result<()> {
    let mut sink = MemSink::new(alloc, ROOM, Vec::new(alloc))?;
    if write_refused_field(bad.key.name(), bad.at, &mut sink).is_err() {
        bail!("no room for the refusal");
    }
    out.write_all(sink.bytes())?;
    Ok(())
}
