//! Items: a widget and its area. The fields of each widget are read in the order of its table.

mod bar_chart;
mod block;
mod fill;
mod frame;
mod gauge;
mod line_gauge;
mod list;
mod logo;
mod monthly;
mod paragraph;
mod scrollbar;
mod sparkline;
mod table;
mod tabs;
pub(crate) mod widget;

ghost use Rattle.serde_json.specs.View.{view};
ghost use Rattle.tui_scene.specs.Item.{item_data, placed_data};
ghost use Rattle.tui_schema.specs.Items.{item_of, item_without_area, placed_of, shown_of};
ghost use Rattle.tui_json.specs.Refusals.{Gives};
ghost use Rattle.tui_schema.specs.Refusals.{as_input};

use crate::bad_field::BadField;
use crate::error::SceneError;
use crate::field::Field;
use crate::items::bar_chart::read_bar_chart;
use crate::items::block::read_block;
use crate::items::fill::read_fill;
use crate::items::gauge::read_gauge;
use crate::items::line_gauge::read_line_gauge;
use crate::items::list::read_list;
use crate::items::logo::read_logo;
use crate::items::monthly::read_monthly;
use crate::items::paragraph::read_paragraph;
use crate::items::scrollbar::read_scrollbar;
use crate::items::sparkline::read_sparkline;
use crate::items::table::read_table;
use crate::items::tabs::read_tabs;
use crate::items::widget::Widget;
use serde_json::Value;
use std::alloc::Global;
use tui_cells::Rect;
use tui_frames::Clear;
use tui_json::{InputError, Numbered, required};
use tui_scene::{Item, Placed};

fn read_shown<'v>(
    alloc: Global,
    widget: Widget,
    item: Option<usize>,
    value: &'v Value,
) -> Result<Item<'v>, InputError<BadField>>
    ensures { Gives item_data result (shown_of widget item (view value.now)) }
{
    match widget {
        Widget::Clear => Ok(Item::Clear(Clear)),
        Widget::Fill => Ok(Item::Fill(read_fill(alloc, item, value)?)),
        Widget::Block => Ok(Item::Block(read_block(alloc, item, value)?)),
        Widget::Paragraph => Ok(Item::Paragraph(read_paragraph(alloc, item, value)?)),
        Widget::List => {
            let (list, state) = read_list(alloc, item, value)?;
            Ok(Item::List(list, state))
        }
        Widget::Table => {
            let (table, state) = read_table(alloc, item, value)?;
            Ok(Item::Table(table, state))
        }
        Widget::Tabs => Ok(Item::Tabs(read_tabs(alloc, item, value)?)),
        Widget::Scrollbar => {
            let (scrollbar, state) = read_scrollbar(alloc, item, value)?;
            Ok(Item::Scrollbar(scrollbar, state))
        }
        Widget::Gauge => Ok(Item::Gauge(read_gauge(alloc, item, value)?)),
        Widget::LineGauge => Ok(Item::LineGauge(read_line_gauge(alloc, item, value)?)),
        Widget::BarChart => Ok(Item::BarChart(read_bar_chart(alloc, item, value)?)),
        Widget::Sparkline => Ok(Item::Sparkline(read_sparkline(alloc, item, value)?)),
        Widget::Monthly => Ok(Item::Monthly(read_monthly(alloc, item, value)?)),
        Widget::Logo => Ok(Item::Logo(read_logo(alloc, item, value)?)),
    }
}

/// The items of a scene.
impl<'v> Numbered<'v, Field> for Placed<'v> {
    ghost use Rattle.tui_scene.specs.Item.{PlacedData};

    type Context = ();

    ghost AsData = { PlacedData };

    ghost as_data = { placed_data };

    ghost tests = { λ context. placed_of };

    #[tactic(auto, unfolding(crate::specs::Items::placed_of))]
    fn read(
        alloc: Global,
        _known: (),
        number: usize,
        value: &'v Value,
    ) -> Result<Placed<'v>, InputError<BadField>> {
        let item = Some(number);
        let widget = required(alloc, item, Field::Widget, value)?;
        let area = required(alloc, item, Field::Area, value)?;
        let item = read_shown(alloc, widget, item, value)?;
        Ok(Placed { area, item })
    }
}

/// Reads an item whose area is given elsewhere. Tests `widget` and then the fields of that widget, in the order of the
/// schema's tables. The key `area` is ignored, like every key that the tables don't name. Fails at the first field that
/// is missing though required, or whose value is not of its kind; the error has `index` as the number of the item.
#[tactic(auto, unfolding(crate::specs::Items::item_without_area))]
pub fn item_without_area<'v>(
    alloc: Global,
    value: &'v Value,
    index: usize,
) -> Result<Item<'v>, InputError<BadField>>
    ensures { Gives item_data result (item_without_area index (view value.now)) }
{
    let index = Some(index);
    let widget = required(alloc, index, Field::Widget, value)?;
    read_shown(alloc, widget, index, value)
}

/// Reads an item in this area, with the tests of `item_without_area`.
#[tactic(auto, unfolding(crate::specs::Items::item_of))]
pub fn item_of<'v>(
    alloc: Global,
    value: &'v Value,
    index: usize,
    area: Rect,
) -> Result<Placed<'v>, SceneError>
    ensures { Gives placed_data (as_input result) (item_of area index (view value.now)) }
{
    let item = item_without_area(alloc, value, index)?;
    Ok(Placed { area, item })
}
