//! The names of the widgets.

ghost use Rattle.std.specs.Prelude.{◌≡◌};
ghost use Rattle.tui_schema.specs.Items.Names.{widget_names};
ghost use Rattle.tui_json.specs.Members.{named};

use crate::field::Field;
use serde_json::Value;
use std::alloc::Global;
use tui_cells::Mem;
use tui_json::{Explains, Fault, Kind, KindError, Wanted};

/// The widgets.
#[derive(Clone, Copy, Debug, PartialEq, Eq)]
pub(crate) enum Widget {
    Clear,
    Fill,
    Block,
    Paragraph,
    List,
    Table,
    Tabs,
    Scrollbar,
    Gauge,
    LineGauge,
    BarChart,
    Sparkline,
    Monthly,
    Logo,
}

pub(crate) fn named_widget(text: &str) -> Option<Widget>
    ensures { result ≡ named widget_names text.now }
{
    match text {
        "clear" => Some(Widget::Clear),
        "fill" => Some(Widget::Fill),
        "block" => Some(Widget::Block),
        "paragraph" => Some(Widget::Paragraph),
        "list" => Some(Widget::List),
        "table" => Some(Widget::Table),
        "tabs" => Some(Widget::Tabs),
        "scrollbar" => Some(Widget::Scrollbar),
        "gauge" => Some(Widget::Gauge),
        "line_gauge" => Some(Widget::LineGauge),
        "bar_chart" => Some(Widget::BarChart),
        "sparkline" => Some(Widget::Sparkline),
        "monthly" => Some(Widget::Monthly),
        "logo" => Some(Widget::Logo),
        _ => None,
    }
}

impl<'v> Kind<'v, Field> for Widget {
    ghost use Rattle.tui_schema.specs.declared.items.widget.Widget.{Widget};
    ghost use Rattle.tui_schema.specs.Items.Names.{widget_of};

    ghost AsData = { Widget };

    ghost as_data = { λ widget. widget };

    ghost kind = { widget_of };

    #[tactic(auto, unfolding(crate::specs::Items::Names::widget_of))]
    fn read(_alloc: Global, value: &'v Value) -> Result<Widget, KindError> {
        let name = value.as_str().ok_or(KindError::WrongKind)?;
        named_widget(name).ok_or(KindError::WrongKind)
    }
}

impl<'v> Explains<'v, Field> for Widget {
    ghost use Rattle.tui_json.specs.Faults.{no_parts};
    ghost use Rattle.tui_schema.specs.FieldFaults.{a_widget};

    ghost wanted = { a_widget };

    ghost part_fault = { no_parts };

    #[tactic(auto, unfolding(tui_json::specs::Named::listed_names))]
    fn wanted() -> Wanted<'v> {
        Wanted::Words(
            "`clear`, `fill`, `block`, `paragraph`, `list`, `table`, `tabs`, `scrollbar`, `gauge`, \
             `line_gauge`, `bar_chart`, `sparkline`, `monthly` or `logo`",
        )
    }

    fn part_fault(_alloc: Global, _value: &'v Value) -> Mem<Option<Fault<'v>>> {
        Ok(None)
    }
}
