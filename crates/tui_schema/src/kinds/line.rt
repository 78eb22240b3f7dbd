//! Lines: a string, an array of spans, or an object with `spans` and optionally `style` and `alignment`.

ghost use Rattle.serde_json.specs.View.{view};
ghost use Rattle.tui_json.specs.Kinds.{Reads};
ghost use Rattle.tui_schema.specs.Kinds.Line.{line_of, line_with_spans};
ghost use Rattle.tui_text.specs.Line.{line_data};

use crate::field::Field;
use crate::kinds::member::{
    elements_fault, member, member_fault, named_fault, optional_named_member, read,
};
use crate::kinds::style::{style_member, style_member_fault};
use serde_json::Value;
use std::alloc::Global;
use tui_cells::Mem;
use tui_json::{Explains, Fault, Kind, KindError, Wanted};
use tui_text::{Alignment, Line, Span};

#[tactic(auto, unfolding(crate::specs::Kinds::Line::line_with_spans))]
fn line_with_spans<'v>(alloc: Global, value: &'v Value) -> Result<Line<'v>, KindError>
    ensures { Reads line_data result (line_with_spans (view value.now)) }
{
    let spans: Vec<Span<'v>> = member(alloc, value, "spans")?;
    let style = style_member(alloc, value, "style")?;
    let alignment: Option<Alignment> = optional_named_member(alloc, value, "alignment")?;
    let line = Line::from(spans).style(style);
    match alignment {
        Some(alignment) => Ok(line.alignment(alignment)),
        None => Ok(line),
    }
}

impl<'v> Kind<'v, Field> for Line<'v> {
    ghost use Rattle.tui_text.specs.Line.{LineData};

    ghost AsData = { LineData };

    ghost as_data = { line_data };

    ghost kind = { line_of };

    #[tactic(auto, unfolding(crate::specs::Kinds::Line::line_of))]
    fn read(alloc: Global, value: &'v Value) -> Result<Line<'v>, KindError> {
        match value {
            Value::String(content) => Ok(Line::raw(alloc, content)?),
            Value::Array(_) => {
                let spans: Vec<Span<'v>> = read(alloc, value)?;
                Ok(Line::from(spans))
            }
            _ => line_with_spans(alloc, value),
        }
    }
}

impl<'v> Explains<'v, Field> for Line<'v> {
    ghost use Rattle.tui_schema.specs.Faults.{a_line, line_parts};

    ghost wanted = { a_line };

    ghost part_fault = { line_parts };

    fn wanted() -> Wanted<'v> {
        Wanted::Words("a string, an array of spans, or an object with `spans`")
    }

    #[tactic(auto, unfolding(crate::specs::Faults::line_parts))]
    fn part_fault(alloc: Global, value: &'v Value) -> Mem<Option<Fault<'v>>> {
        match value {
            Value::Array(_) => elements_fault::<Span<'v>>(alloc, value),
            Value::Object(_) => {
                let spans = member_fault::<Vec<Span<'v>>>(alloc, value, "spans")?;
                let style = style_member_fault(alloc, value)?;
                let alignment = named_fault::<Alignment>(alloc, value, "alignment")?;
                Ok(spans.or(style).or(alignment))
            }
            _ => Ok(None),
        }
    }
}
