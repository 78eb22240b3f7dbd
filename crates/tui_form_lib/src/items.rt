//! The fields as items of a list.

ghost use Rattle.std.specs.Prelude.{◌≡◌, [], ◌∷◌, ◌++◌, codes, IfOk, OnOk, length, map, replicate, string_bytes, true};
ghost use Rattle.tui_form_lib.specs.Field.{field_data};
ghost use Rattle.tui_form_lib.specs.Lines.{
  bold,
  box_text,
  choice_spans,
  field_item,
  is_reported,
  items_from,
  label_line,
  needed_mark,
  reported_mark,
  text_spans,
  value_line,
  value_spans,
};
ghost use Rattle.tui_form_lib.specs.Value.{value_data};
ghost use Rattle.tui_lists.specs.ListItem.{list_item_data};
ghost use Rattle.tui_text.specs.Line.{line_data};
ghost use Rattle.tui_text.specs.Span.{raw_span};
ghost use Rattle.unicode_segmentation.specs.Grapheme.{graphemes};

use crate::field::FormField;
use crate::value::{Value, chosen_or_empty};
use std::alloc::Global;
use tui_cells::{Mem, Modifier, Style};
use tui_input::InputState;
use tui_lists::ListItem;
use tui_text::{Line, Span, Text};
use unicode_segmentation::UnicodeSegmentation;

/// Returns the fields as items. One may be marked as needed, and one has the focus.
pub(crate) fn field_items<'f>(
    alloc: Global,
    fields: &'f [FormField],
    reported: Option<usize>,
    focus: usize,
) -> Mem<Vec<ListItem<'f>>>
    ensures { IfOk result (λ items. map list_item_data items.items ≡ items_from reported focus 0 (map field_data fields.now)) }
{
    let mut items = Vec::with_capacity(alloc, fields.len())?;
    'fields: for place in 0..fields.len() {
        let is_reported = is_reported(reported, place);
        items.push(field_item(alloc, &fields[place], is_reported, place == focus)?)?;
    }
    Ok(items)
}

fn is_reported(reported: Option<usize>, place: usize) -> bool
    ensures { result ≡ is_reported reported place }
{
    reported == Some(place)
}

/// Returns the label, and the value below it.
fn field_item<'f>(
    alloc: Global,
    field: &'f FormField,
    is_reported: bool,
    is_focused: bool,
) -> Mem<ListItem<'f>>
    ensures { IfOk result (λ item. list_item_data item ≡ field_item is_reported is_focused (field_data field.now)) }
{
    let mut text = Text::new(alloc);
    text.push_line(label_line(alloc, field, is_reported)?)?;
    text.push_line(value_line(alloc, &field.value, is_focused)?)?;
    Ok(ListItem::new(text))
}

/// Returns the label, a star if the field is needed, and the word `needed` if it is marked.
fn label_line<'f>(alloc: Global, field: &'f FormField, is_reported: bool) -> Mem<Line<'f>>
    ensures { IfOk result (λ line. line_data line ≡ label_line is_reported (field_data field.now)) }
{
    let mut line = Line::raw(alloc, field.label.as_str())?;
    line.push_span(Span::raw(needed_mark(field.is_needed)))?;
    line.push_span(Span::styled(reported_mark(is_reported), bold()))?;
    Ok(line)
}

fn needed_mark(is_needed: bool) -> &'static str
    ensures { result.now ≡ needed_mark is_needed }
{
    if is_needed { " *" } else { "" }
}

fn reported_mark(is_reported: bool) -> &'static str
    ensures { result.now ≡ reported_mark is_reported }
{
    if is_reported { " needed" } else { "" }
}

fn bold() -> Style
    ensures { result ≡ bold }
{
    Style::new().add_modifier(Modifier::BOLD)
}

/// Returns the value, indented by two columns.
fn value_line<'f>(alloc: Global, value: &'f Value, is_focused: bool) -> Mem<Line<'f>>
    ensures { IfOk result (λ line. line_data line ≡ value_line is_focused (value_data value.now)) }
{
    let mut line = Line::raw(alloc, "  ")?;
    push_value(&mut line, value, is_focused)?;
    Ok(line)
}

/// Adds the value as the list shows it. A focused text is left out, since it is drawn over the line.
fn push_value<'f>(line: &mut Line<'f>, value: &'f Value, is_focused: bool) -> Mem<()>
    ensures { OnOk result (line_data line.new
        ≡ record (line_data line.old) { spans = (line_data line.old).spans ++ value_spans is_focused (value_data value.now) }) }
{
    match value {
        Value::Text { input, is_masked } => {
            if is_focused {
                Ok(())
            } else {
                push_text(line, input, *is_masked)
            }
        }
        Value::Choice { options, chosen } => push_choice(line, options, *chosen),
        Value::Check(is_on) => line.push_span(Span::raw(box_text(*is_on))),
    }
}

fn push_choice<'f>(line: &mut Line<'f>, texts: &'f Vec<String>, chosen: Option<usize>) -> Mem<()>
    ensures { OnOk result (line_data line.new
        ≡ record (line_data line.old) { spans = (line_data line.old).spans ++ choice_spans (map string_bytes texts.now.items) chosen }) }
{
    line.push_span(Span::raw("< "))?;
    line.push_span(Span::raw(chosen_or_empty(texts, chosen)))?;
    line.push_span(Span::raw(" >"))
}

fn box_text(is_on: bool) -> &'static str
    ensures { result.now ≡ box_text is_on }
{
    if is_on { "[x]" } else { "[ ]" }
}

/// Adds a text, or a star for each of its graphemes.
fn push_text<'f>(line: &mut Line<'f>, input: &'f InputState, is_masked: bool) -> Mem<()>
    ensures { OnOk result (line_data line.new
        ≡ record (line_data line.old) { spans = (line_data line.old).spans ++ text_spans input.now is_masked }) }
{
    if is_masked {
        push_stars(line, count(input.text()))
    } else {
        line.push_span(Span::raw(input.text()))
    }
}

fn count(text: &str) -> usize
    ensures { result ≡ length (graphemes true text.now) }
{
    text.graphemes(true).count()
}

fn push_stars(line: &mut Line<'_>, count: usize) -> Mem<()>
    ensures { OnOk result (line_data line.new
        ≡ record (line_data line.old) { spans = (line_data line.old).spans ++ replicate count (raw_span (codes "*")) }) }
{
    'stars: for _star in 0..count {
        line.push_span(Span::raw("*"))?;
    }
    Ok(())
}
