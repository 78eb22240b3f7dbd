//! Where a rejected scene has the value that is not valid.

ghost use Rattle.std.specs.Prelude.{◌≡◌, IfOk, option_map, string_bytes};
ghost use Rattle.serde_json.specs.View.{view};
ghost use Rattle.tui_json.specs.Explanation.{explanation};
ghost use Rattle.tui_json.specs.Faults.{fault_data, given_member_fault, optional_member_fault};
ghost use Rattle.tui_schema.specs.Faults.{flag_fault, long_fault, style_fault, symbol_fault};
ghost use Rattle.tui_schema.specs.FieldFaults.{
  direction_fault,
  field_fault,
  label_fault,
  number_field_fault,
  scene_fault,
  scene_field_fault,
  selected_fault,
  style_field_fault,
  symbol_field_fault,
  symbol_or_null_fault,
  widget_in,
};

use crate::bad_field::BadField;
use crate::field::Field;
use crate::items::widget::{Widget, named_widget};
use crate::kinds::member::{member_fault, named_fault, optional_member_fault};
use crate::kinds::{Share, StyledDate, Symbol, TableWidth};
use jiff::civil::Date;
use serde_json::Value;
use std::alloc::Global;
use tui_bars::{BarGroup, RenderDirection, SparklineBar};
use tui_cells::{Mem, Rect, Style, bar};
use tui_frames::Block;
use tui_json::{Counted, Fault, Within, explain, given_member_fault, inside_at, value_at};
use tui_layout::{Direction, Flex, HighlightSpacing};
use tui_lists::{ListDirection, ListItem, ScrollbarOrientation};
use tui_para::{Size, Wrap};
use tui_table::Row;
use tui_text::{Alignment, Line, Span, Text};

/// Returns what is wrong with a scene that was rejected, in words: where the value is, what is wanted there, and what is
/// there. Fails with `NoMemory` if there is no memory for the text.
pub fn explain_scene(alloc: Global, value: &Value, bad: BadField) -> Mem<Option<String>>
    ensures { IfOk result (λ text. option_map string_bytes text ≡ option_map explanation (scene_fault bad (view value.now))) }
{
    explain(alloc, scene_fault(alloc, value, bad)?)
}

fn scene_fault<'v>(alloc: Global, value: &'v Value, bad: BadField) -> Mem<Option<Fault<'v>>>
    ensures { IfOk result (λ found. option_map fault_data found ≡ scene_fault bad (view value.now)) }
{
    match bad.item {
        None => scene_field_fault(alloc, value, bad.field),
        Some(number) => {
            let found = match value_at(value, "items", number) {
                Some(item) => item_fault(alloc, item, bad.field)?,
                None => None,
            };
            inside_at(found, "items", number)
        }
    }
}

/// Returns the fault of a field of the scene itself.
fn scene_field_fault<'v>(alloc: Global, value: &'v Value, field: Field) -> Mem<Option<Fault<'v>>>
    ensures { IfOk result (λ found. option_map fault_data found ≡ scene_field_fault field (view value.now)) }
{
    match field {
        Field::Items => member_fault::<Counted<'v, 0, 256>>(alloc, value, "items"),
        _ => item_fault(alloc, value, field),
    }
}

/// Returns the fault of a field of an item: the first of its parts that is not valid, or the field itself. Returns None
/// if the field is valid. Fails with `NoMemory` if there is no memory for the path to it.
#[tactic(auto, unfolding(crate::specs::FieldFaults::field_fault))]
pub fn item_fault<'v>(alloc: Global, value: &'v Value, field: Field) -> Mem<Option<Fault<'v>>>
    ensures { IfOk result (λ found. option_map fault_data found ≡ field_fault field (view value.now)) }
{
    match field {
        Field::Items => member_fault::<Vec<ListItem<'v>>>(alloc, value, "items"),
        Field::Widget => member_fault::<Widget>(alloc, value, "widget"),
        Field::Area => member_fault::<Rect>(alloc, value, "area"),
        Field::Block => optional_member_fault::<Block<'v>>(alloc, value, "block"),
        Field::Text => member_fault::<Text<'v>>(alloc, value, "text"),
        Field::Wrap => optional_member_fault::<Wrap>(alloc, value, "wrap"),
        Field::Direction => direction_fault(alloc, value),
        Field::Selected => selected_fault(alloc, value),
        Field::Rows => member_fault::<Vec<Row<'v>>>(alloc, value, "rows"),
        Field::Header => optional_member_fault::<Row<'v>>(alloc, value, "header"),
        Field::Footer => optional_member_fault::<Row<'v>>(alloc, value, "footer"),
        Field::Widths => optional_member_fault::<Vec<TableWidth>>(alloc, value, "widths"),
        Field::Titles => member_fault::<Vec<Line<'v>>>(alloc, value, "titles"),
        Field::Ratio => optional_member_fault::<Share>(alloc, value, "ratio"),
        Field::Percent => optional_member_fault::<Within<0, 100>>(alloc, value, "percent"),
        Field::Label => label_fault(alloc, value),
        Field::Groups => member_fault::<Vec<BarGroup<'v>>>(alloc, value, "groups"),
        Field::Data => member_fault::<Vec<SparklineBar>>(alloc, value, "data"),
        Field::Date => member_fault::<Date>(alloc, value, "date"),
        Field::Events => optional_member_fault::<Vec<StyledDate>>(alloc, value, "events"),
        _ => number_field_fault(alloc, value, field),
    }
}

/// Returns the fault of a field that is a number, true or false, or a name.
fn number_field_fault<'v>(alloc: Global, value: &'v Value, field: Field) -> Mem<Option<Fault<'v>>>
    ensures { IfOk result (λ found. option_map fault_data found ≡ number_field_fault field (view value.now)) }
{
    match field {
        Field::Width => member_fault::<Within<1, 1000>>(alloc, value, "width"),
        Field::Height => member_fault::<Within<1, 1000>>(alloc, value, "height"),
        Field::Scroll => optional_member_fault::<(u16, u16)>(alloc, value, "scroll"),
        Field::ScrollPadding => long_fault(alloc, value, "scroll_padding"),
        Field::Offset => long_fault(alloc, value, "offset"),
        Field::SelectedColumn => long_fault(alloc, value, "selected_column"),
        Field::ContentLength => long_fault(alloc, value, "content_length"),
        Field::Position => long_fault(alloc, value, "position"),
        Field::ViewportContentLength => long_fault(alloc, value, "viewport_content_length"),
        Field::Max => long_fault(alloc, value, "max"),
        Field::ColumnSpacing => optional_member_fault::<u16>(alloc, value, "column_spacing"),
        Field::BarWidth => optional_member_fault::<u16>(alloc, value, "bar_width"),
        Field::BarGap => optional_member_fault::<u16>(alloc, value, "bar_gap"),
        Field::GroupGap => optional_member_fault::<u16>(alloc, value, "group_gap"),
        Field::RepeatHighlightSymbol => flag_fault(alloc, value, "repeat_highlight_symbol"),
        Field::UseUnicode => flag_fault(alloc, value, "use_unicode"),
        Field::Alignment => named_fault::<Alignment>(alloc, value, "alignment"),
        Field::HighlightSpacing => named_fault::<HighlightSpacing>(
            alloc,
            value,
            "highlight_spacing",
        ),
        Field::Flex => named_fault::<Flex>(alloc, value, "flex"),
        Field::Orientation => named_fault::<ScrollbarOrientation>(alloc, value, "orientation"),
        Field::Size => named_fault::<Size>(alloc, value, "size"),
        _ => symbol_field_fault(alloc, value, field),
    }
}

fn long_fault<'v>(alloc: Global, value: &'v Value, name: &'v str) -> Mem<Option<Fault<'v>>>
    ensures { IfOk result (λ found. option_map fault_data found ≡ optional_member_fault long_fault name.now (view value.now)) }
{
    optional_member_fault::<u64>(alloc, value, name)
}

fn flag_fault<'v>(alloc: Global, value: &'v Value, name: &'v str) -> Mem<Option<Fault<'v>>>
    ensures { IfOk result (λ found. option_map fault_data found ≡ optional_member_fault flag_fault name.now (view value.now)) }
{
    optional_member_fault::<bool>(alloc, value, name)
}

/// Returns the fault of a field that is a symbol or symbols.
fn symbol_field_fault<'v>(alloc: Global, value: &'v Value, field: Field) -> Mem<Option<Fault<'v>>>
    ensures { IfOk result (λ found. option_map fault_data found ≡ symbol_field_fault field (view value.now)) }
{
    match field {
        Field::Symbol => member_fault::<Symbol<'v>>(alloc, value, "symbol"),
        Field::HighlightSymbol => optional_symbol_fault(alloc, value, "highlight_symbol"),
        Field::Divider => optional_symbol_fault(alloc, value, "divider"),
        Field::PaddingLeft => optional_symbol_fault(alloc, value, "padding_left"),
        Field::PaddingRight => optional_symbol_fault(alloc, value, "padding_right"),
        Field::ThumbSymbol => optional_symbol_fault(alloc, value, "thumb_symbol"),
        Field::TrackSymbol => symbol_or_null_fault(alloc, value, "track_symbol"),
        Field::BeginSymbol => symbol_or_null_fault(alloc, value, "begin_symbol"),
        Field::EndSymbol => symbol_or_null_fault(alloc, value, "end_symbol"),
        Field::FilledSymbol => optional_symbol_fault(alloc, value, "filled_symbol"),
        Field::UnfilledSymbol => optional_symbol_fault(alloc, value, "unfilled_symbol"),
        Field::AbsentValueSymbol => optional_symbol_fault(alloc, value, "absent_value_symbol"),
        Field::BarSet => optional_member_fault::<bar::Set<'v>>(alloc, value, "bar_set"),
        _ => style_field_fault(alloc, value, field),
    }
}

fn optional_symbol_fault<'v>(
    alloc: Global,
    value: &'v Value,
    name: &'v str,
) -> Mem<Option<Fault<'v>>>
    ensures { IfOk result (λ found. option_map fault_data found ≡ optional_member_fault symbol_fault name.now (view value.now)) }
{
    optional_member_fault::<Symbol<'v>>(alloc, value, name)
}

fn symbol_or_null_fault<'v>(
    alloc: Global,
    value: &'v Value,
    name: &'v str,
) -> Mem<Option<Fault<'v>>>
    ensures { IfOk result (λ found. option_map fault_data found ≡ given_member_fault symbol_or_null_fault name.now (view value.now)) }
{
    given_member_fault::<Option<Symbol<'v>>, Field>(alloc, value, name)
}

/// Returns the fault of a field that is a style. Returns None for any other field.
fn style_field_fault<'v>(alloc: Global, value: &'v Value, field: Field) -> Mem<Option<Fault<'v>>>
    ensures { IfOk result (λ found. option_map fault_data found ≡ style_field_fault field (view value.now)) }
{
    match field {
        Field::Style => style_fault(alloc, value, "style"),
        Field::HighlightStyle => style_fault(alloc, value, "highlight_style"),
        Field::RowHighlightStyle => style_fault(alloc, value, "row_highlight_style"),
        Field::ColumnHighlightStyle => style_fault(alloc, value, "column_highlight_style"),
        Field::CellHighlightStyle => style_fault(alloc, value, "cell_highlight_style"),
        Field::ThumbStyle => style_fault(alloc, value, "thumb_style"),
        Field::TrackStyle => style_fault(alloc, value, "track_style"),
        Field::BeginStyle => style_fault(alloc, value, "begin_style"),
        Field::EndStyle => style_fault(alloc, value, "end_style"),
        Field::GaugeStyle => style_fault(alloc, value, "gauge_style"),
        Field::FilledStyle => style_fault(alloc, value, "filled_style"),
        Field::UnfilledStyle => style_fault(alloc, value, "unfilled_style"),
        Field::BarStyle => style_fault(alloc, value, "bar_style"),
        Field::ValueStyle => style_fault(alloc, value, "value_style"),
        Field::LabelStyle => style_fault(alloc, value, "label_style"),
        Field::AbsentValueStyle => style_fault(alloc, value, "absent_value_style"),
        Field::ShowSurrounding => style_fault(alloc, value, "show_surrounding"),
        Field::ShowMonthHeader => style_fault(alloc, value, "show_month_header"),
        Field::ShowWeekdaysHeader => style_fault(alloc, value, "show_weekdays_header"),
        Field::DefaultStyle => style_fault(alloc, value, "default_style"),
        _ => Ok(None),
    }
}

fn style_fault<'v>(alloc: Global, value: &'v Value, name: &'v str) -> Mem<Option<Fault<'v>>>
    ensures { IfOk result (λ found. option_map fault_data found ≡ optional_member_fault style_fault name.now (view value.now)) }
{
    optional_member_fault::<Style>(alloc, value, name)
}

/// Returns the widget of an item, if it has one.
#[tactic(auto, unfolding(crate::specs::Items::Names::widget_of))]
fn widget_in(value: &Value) -> Option<Widget>
    ensures { result ≡ widget_in (view value.now) }
{
    named_widget(value.get("widget")?.as_str()?)
}

/// Returns the fault of `direction`, which each widget reads by its own names.
fn direction_fault<'v>(alloc: Global, value: &'v Value) -> Mem<Option<Fault<'v>>>
    ensures { IfOk result (λ found. option_map fault_data found ≡ direction_fault (widget_in (view value.now)) (view value.now)) }
{
    match widget_in(value) {
        Some(Widget::List) => named_fault::<ListDirection>(alloc, value, "direction"),
        Some(Widget::Sparkline) => named_fault::<RenderDirection>(alloc, value, "direction"),
        _ => named_fault::<Direction>(alloc, value, "direction"),
    }
}

/// Returns the fault of `label`, which is a span for a gauge and a line for other widgets.
fn label_fault<'v>(alloc: Global, value: &'v Value) -> Mem<Option<Fault<'v>>>
    ensures { IfOk result (λ found. option_map fault_data found ≡ label_fault (widget_in (view value.now)) (view value.now)) }
{
    match widget_in(value) {
        Some(Widget::Gauge) => optional_member_fault::<Span<'v>>(alloc, value, "label"),
        _ => optional_member_fault::<Line<'v>>(alloc, value, "label"),
    }
}

/// Returns the fault of `selected`, for which only tabs tell null from an absent field.
fn selected_fault<'v>(alloc: Global, value: &'v Value) -> Mem<Option<Fault<'v>>>
    ensures { IfOk result (λ found. option_map fault_data found ≡ selected_fault (widget_in (view value.now)) (view value.now)) }
{
    match widget_in(value) {
        Some(Widget::Tabs) => given_member_fault::<Option<u64>, Field>(alloc, value, "selected"),
        _ => optional_member_fault::<u64>(alloc, value, "selected"),
    }
}
