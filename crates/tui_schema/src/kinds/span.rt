//! Spans: a string, or an object with `text` and optionally `style`.

ghost use Rattle.serde_json.specs.View.{view};
ghost use Rattle.tui_json.specs.Kinds.{Reads};
ghost use Rattle.tui_schema.specs.Kinds.Span.{span_of, span_with_text};
ghost use Rattle.tui_text.specs.Span.{span_data};

use crate::field::Field;
use crate::kinds::member::{member, member_fault};
use crate::kinds::style::{style_member, style_member_fault};
use serde_json::Value;
use std::alloc::Global;
use tui_cells::Mem;
use tui_json::{Explains, Fault, Kind, KindError, Wanted};
use tui_text::Span;

#[tactic(auto, unfolding(crate::specs::Kinds::Span::span_with_text))]
fn span_with_text<'v>(alloc: Global, value: &'v Value) -> Result<Span<'v>, KindError>
    ensures { Reads span_data result (span_with_text (view value.now)) }
{
    let content: &'v str = member(alloc, value, "text")?;
    let style = style_member(alloc, value, "style")?;
    Ok(Span::styled(content, style))
}

impl<'v> Kind<'v, Field> for Span<'v> {
    ghost use Rattle.tui_text.specs.Span.{SpanData};

    ghost AsData = { SpanData };

    ghost as_data = { span_data };

    ghost kind = { span_of };

    #[tactic(auto, unfolding(crate::specs::Kinds::Span::span_of))]
    fn read(alloc: Global, value: &'v Value) -> Result<Span<'v>, KindError> {
        match value {
            Value::String(content) => Ok(Span::raw(content)),
            _ => span_with_text(alloc, value),
        }
    }
}

impl<'v> Explains<'v, Field> for Span<'v> {
    ghost use Rattle.tui_schema.specs.Faults.{a_span, span_parts};

    ghost wanted = { a_span };

    ghost part_fault = { span_parts };

    fn wanted() -> Wanted<'v> {
        Wanted::Words("a string, or an object with `text`")
    }

    #[tactic(auto, unfolding(crate::specs::Faults::span_parts))]
    fn part_fault(alloc: Global, value: &'v Value) -> Mem<Option<Fault<'v>>> {
        if !value.is_object() {
            return Ok(None);
        }
        let text = member_fault::<&'v str>(alloc, value, "text")?;
        Ok(text.or(style_member_fault(alloc, value)?))
    }
}
