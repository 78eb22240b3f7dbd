//! Text: a string, which is split into lines; an array of lines; or an object with `lines` and optionally `style` and
//! `alignment`.

ghost use Rattle.serde_json.specs.View.{view};
ghost use Rattle.tui_json.specs.Kinds.{Reads};
ghost use Rattle.tui_schema.specs.Kinds.Text.{text_of, text_with_lines};
ghost use Rattle.tui_text.specs.Text.{text_data};

use crate::field::Field;
use crate::kinds::member::{
    elements_fault, member, member_fault, named_fault, optional_named_member, read,
};
use crate::kinds::style::{style_member, style_member_fault};
use serde_json::Value;
use std::alloc::Global;
use tui_cells::Mem;
use tui_json::{Explains, Fault, Kind, KindError, Wanted};
use tui_text::{Alignment, Line, Text};

#[tactic(auto, unfolding(crate::specs::Kinds::Text::text_with_lines))]
fn text_with_lines<'v>(alloc: Global, value: &'v Value) -> Result<Text<'v>, KindError>
    ensures { Reads text_data result (text_with_lines (view value.now)) }
{
    let lines: Vec<Line<'v>> = member(alloc, value, "lines")?;
    let style = style_member(alloc, value, "style")?;
    let alignment: Option<Alignment> = optional_named_member(alloc, value, "alignment")?;
    let text = Text::from(lines).style(style);
    match alignment {
        Some(alignment) => Ok(text.alignment(alignment)),
        None => Ok(text),
    }
}

impl<'v> Kind<'v, Field> for Text<'v> {
    ghost use Rattle.tui_text.specs.Text.{TextData};

    ghost AsData = { TextData };

    ghost as_data = { text_data };

    ghost kind = { text_of };

    #[tactic(auto, unfolding(crate::specs::Kinds::Text::text_of))]
    fn read(alloc: Global, value: &'v Value) -> Result<Text<'v>, KindError> {
        match value {
            Value::String(content) => Ok(Text::raw(alloc, content)?),
            Value::Array(_) => {
                let lines: Vec<Line<'v>> = read(alloc, value)?;
                Ok(Text::from(lines))
            }
            _ => text_with_lines(alloc, value),
        }
    }
}

impl<'v> Explains<'v, Field> for Text<'v> {
    ghost use Rattle.tui_schema.specs.Faults.{a_text, text_parts};

    ghost wanted = { a_text };

    ghost part_fault = { text_parts };

    fn wanted() -> Wanted<'v> {
        Wanted::Words("a string, an array of lines, or an object with `lines`")
    }

    #[tactic(auto, unfolding(crate::specs::Faults::text_parts))]
    fn part_fault(alloc: Global, value: &'v Value) -> Mem<Option<Fault<'v>>> {
        match value {
            Value::Array(_) => elements_fault::<Line<'v>>(alloc, value),
            Value::Object(_) => {
                let lines = member_fault::<Vec<Line<'v>>>(alloc, value, "lines")?;
                let style = style_member_fault(alloc, value)?;
                let alignment = named_fault::<Alignment>(alloc, value, "alignment")?;
                Ok(lines.or(style).or(alignment))
            }
            _ => Ok(None),
        }
    }
}
