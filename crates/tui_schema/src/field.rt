//! The fields of the schema.

use crate::bad_field::BadField;
use tui_json::Fields;

/// A field of a scene or of an item in JSON.
#[derive(Clone, Copy, Debug, PartialEq, Eq)]
pub enum Field {
    Width,
    Height,
    Items,
    Widget,
    Area,
    Symbol,
    Style,
    Block,
    Text,
    Wrap,
    Scroll,
    Alignment,
    HighlightSymbol,
    HighlightStyle,
    RepeatHighlightSymbol,
    HighlightSpacing,
    Direction,
    ScrollPadding,
    Offset,
    Selected,
    Rows,
    Header,
    Footer,
    Widths,
    ColumnSpacing,
    RowHighlightStyle,
    ColumnHighlightStyle,
    CellHighlightStyle,
    Flex,
    SelectedColumn,
    Titles,
    Divider,
    PaddingLeft,
    PaddingRight,
    Orientation,
    ThumbSymbol,
    TrackSymbol,
    BeginSymbol,
    EndSymbol,
    ThumbStyle,
    TrackStyle,
    BeginStyle,
    EndStyle,
    ContentLength,
    Position,
    ViewportContentLength,
    Ratio,
    Percent,
    Label,
    GaugeStyle,
    UseUnicode,
    FilledSymbol,
    UnfilledSymbol,
    FilledStyle,
    UnfilledStyle,
    Groups,
    Max,
    BarWidth,
    BarGap,
    GroupGap,
    BarSet,
    BarStyle,
    ValueStyle,
    LabelStyle,
    Data,
    AbsentValueStyle,
    AbsentValueSymbol,
    Date,
    Events,
    ShowSurrounding,
    ShowMonthHeader,
    ShowWeekdaysHeader,
    DefaultStyle,
    Size,
}

impl Field {
    ghost use Rattle.std.specs.Prelude.{◌≡◌};
    ghost use Rattle.tui_schema.specs.Field.{field_name};

    /// Returns the name of the field in the schema, such as `highlight_symbol`.
    pub fn name(&self) -> &'static str
        ensures { result.now ≡ field_name self.now }
    {
        match self {
            Field::Width => "width",
            Field::Height => "height",
            Field::Items => "items",
            Field::Widget => "widget",
            Field::Area => "area",
            Field::Symbol => "symbol",
            Field::Style => "style",
            Field::Block => "block",
            Field::Text => "text",
            Field::Wrap => "wrap",
            Field::Scroll => "scroll",
            Field::Alignment => "alignment",
            Field::HighlightSymbol => "highlight_symbol",
            Field::HighlightStyle => "highlight_style",
            Field::RepeatHighlightSymbol => "repeat_highlight_symbol",
            Field::HighlightSpacing => "highlight_spacing",
            Field::Direction => "direction",
            Field::ScrollPadding => "scroll_padding",
            Field::Offset => "offset",
            Field::Selected => "selected",
            Field::Rows => "rows",
            Field::Header => "header",
            Field::Footer => "footer",
            Field::Widths => "widths",
            Field::ColumnSpacing => "column_spacing",
            Field::RowHighlightStyle => "row_highlight_style",
            Field::ColumnHighlightStyle => "column_highlight_style",
            Field::CellHighlightStyle => "cell_highlight_style",
            Field::Flex => "flex",
            Field::SelectedColumn => "selected_column",
            Field::Titles => "titles",
            Field::Divider => "divider",
            Field::PaddingLeft => "padding_left",
            Field::PaddingRight => "padding_right",
            Field::Orientation => "orientation",
            Field::ThumbSymbol => "thumb_symbol",
            Field::TrackSymbol => "track_symbol",
            Field::BeginSymbol => "begin_symbol",
            Field::EndSymbol => "end_symbol",
            Field::ThumbStyle => "thumb_style",
            Field::TrackStyle => "track_style",
            Field::BeginStyle => "begin_style",
            Field::EndStyle => "end_style",
            Field::ContentLength => "content_length",
            Field::Position => "position",
            Field::ViewportContentLength => "viewport_content_length",
            Field::Ratio => "ratio",
            Field::Percent => "percent",
            Field::Label => "label",
            Field::GaugeStyle => "gauge_style",
            Field::UseUnicode => "use_unicode",
            Field::FilledSymbol => "filled_symbol",
            Field::UnfilledSymbol => "unfilled_symbol",
            Field::FilledStyle => "filled_style",
            Field::UnfilledStyle => "unfilled_style",
            Field::Groups => "groups",
            Field::Max => "max",
            Field::BarWidth => "bar_width",
            Field::BarGap => "bar_gap",
            Field::GroupGap => "group_gap",
            Field::BarSet => "bar_set",
            Field::BarStyle => "bar_style",
            Field::ValueStyle => "value_style",
            Field::LabelStyle => "label_style",
            Field::Data => "data",
            Field::AbsentValueStyle => "absent_value_style",
            Field::AbsentValueSymbol => "absent_value_symbol",
            Field::Date => "date",
            Field::Events => "events",
            Field::ShowSurrounding => "show_surrounding",
            Field::ShowMonthHeader => "show_month_header",
            Field::ShowWeekdaysHeader => "show_weekdays_header",
            Field::DefaultStyle => "default_style",
            Field::Size => "size",
        }
    }
}

impl Fields for Field {
    ghost use Rattle.tui_schema.specs.Field.{field_name};
    ghost use Rattle.tui_schema.specs.Refusals.{bad_field};

    type Refusal = BadField;

    ghost key = { field_name };

    ghost refusal = { bad_field };

    fn key(&self) -> &'static str {
        self.name()
    }

    fn refusal(self, at: Option<usize>) -> BadField {
        BadField {
            item: at,
            field: self,
        }
    }
}
