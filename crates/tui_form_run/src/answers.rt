//! The answers of a form as JSON.

ghost use Rattle.std.specs.Prelude.{◌≡◌, ◌++◌, IfOk, IsUtf8, OnOk, map};
ghost use Rattle.tui_form_lib.specs.Field.{field_data};
ghost use Rattle.tui_form_run.specs.Answers.{WritesAnswersLine, answer_tokens, answers_line, answers_tokens};

use json::Writer;
use std::alloc::Global;
use tui_cells::Mem;
use tui_form_lib::{Answer, FormField};
use tui_io::{Sink, write_all};
use tui_program::Outcome;

/// Writes the answers of these fields, in order, as one line. The line is a JSON object (RFC 8259) and a newline. The
/// object has each field's name with its answer, a string or a boolean, without spaces between its parts. Fails with
/// `WriteFault` if the sink has taken a first part of the bytes, but not all of them, and with `NoMemory` if nothing was
/// written.
pub fn write_answers_line<R, K: Sink>(
    alloc: Global,
    fields: &[FormField],
    sink: &mut K,
) -> Outcome<(), R>
    ensures { WritesAnswersLine (map field_data fields.now) (K.observed sink.old) (K.observed sink.new) result }
{
    let line = answers_line(alloc, fields)?;
    write_all(sink, line.as_slice())?;
    Ok(())
}

fn answers_line(alloc: Global, fields: &[FormField]) -> Mem<Vec<u8>>
    ensures { IfOk result (λ line. line.items ≡ answers_line (map field_data fields.now)) }
{
    let mut out = Writer::new(Vec::new(alloc));
    write_answers(&mut out, fields)?;
    let mut line = out.into_inner();
    line.push(b'\n')?;
    Ok(line)
}

fn write_answers(out: &mut Writer, fields: &[FormField]) -> Mem<()>
    ensures before { out.new.before ≡ out.old.before }
    ensures tokens { OnOk result (out.new.tokens ≡ out.old.tokens ++ answers_tokens (map field_data fields.now)) }
{
    out.begin_object()?;
    'fields: for field in fields {
        write_answer(out, field)?;
    }
    out.end_object()?;
    Ok(())
}

fn write_answer(out: &mut Writer, field: &FormField) -> Mem<()>
    ensures before { out.new.before ≡ out.old.before }
    ensures tokens { OnOk result (out.new.tokens ≡ out.old.tokens ++ answer_tokens (field_data field.now)) }
{
    out.key(field.name.as_str())?;
    match field.answer() {
        Answer::Text(text) => out.string(text)?,
        Answer::Flag(flag) => out.boolean(flag)?,
    }
    Ok(())
}
