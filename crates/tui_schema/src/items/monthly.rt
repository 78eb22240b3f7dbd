//! The fields of `monthly`.

ghost use Rattle.std.specs.Prelude.{◌≡◌, [], IfOk, map, option_map};
ghost use Rattle.serde_json.specs.View.{view};
ghost use Rattle.tui_calendar.specs.CalendarEventStore.{dated_styles};
ghost use Rattle.tui_calendar.specs.Month.{date_data};
ghost use Rattle.tui_calendar.specs.Monthly.{monthly_data};
ghost use Rattle.tui_frames.specs.Block.{block_data};
ghost use Rattle.tui_schema.specs.Items.MonthlyFields.{calendar_data, month_styles_of, shown_monthly};
ghost use Rattle.tui_schema.specs.Kinds.StyledDate.{event_data, with_events};
ghost use Rattle.tui_json.specs.Refusals.{Gives};

use crate::bad_field::BadField;
use crate::field::Field;
use crate::items::frame::read_style;
use crate::kinds::StyledDate;
use jiff::civil::Date;
use serde_json::Value;
use std::alloc::Global;
use tui_calendar::{CalendarEventStore, Monthly};
use tui_cells::{Mem, Style};
use tui_frames::Block;
use tui_json::{InputError, optional, required};

/// A month whose event styles are in a store.
type Calendar<'v> = Monthly<'v, CalendarEventStore>;

/// Returns a store of the events. If several have the same day, the last one counts.
fn stored(alloc: Global, events: &[StyledDate]) -> Mem<CalendarEventStore>
    ensures { IfOk result (λ store. dated_styles store ≡ with_events [] (map event_data events.now)) }
{
    let mut store = CalendarEventStore::new(alloc);
    for event in events {
        store.add(event.date, event.style)?;
    }
    Ok(store)
}

/// Returns the month of a date in this block, if there is one, with these styles.
fn styled<'v>(
    date: Date,
    store: CalendarEventStore,
    block: Option<Block<'v>>,
    styles: (Option<Style>, Option<Style>, Option<Style>, Style),
) -> Calendar<'v>
    ensures is { monthly_data result ≡ record {
      block = option_map block_data block.entry;
      date = date_data date;
      surrounding = styles.0;
      month_header = styles.1;
      weekdays_header = styles.2;
      default_style = styles.3;
    } }
    ensures events { result.events ≡ store }
{
    let (surrounding, month_header, weekdays_header, style) = styles;
    let month = Monthly::new(date, store).default_style(style);
    let month = match block {
        Some(block) => month.block(block),
        None => month,
    };
    let month = match surrounding {
        Some(style) => month.show_surrounding(style),
        None => month,
    };
    let month = match month_header {
        Some(style) => month.show_month_header(style),
        None => month,
    };
    match weekdays_header {
        Some(style) => month.show_weekdays_header(style),
        None => month,
    }
}

/// Reads the styles of the days and the headers.
#[tactic(auto, unfolding(crate::specs::Items::MonthlyFields::month_styles_of))]
fn read_styles(
    alloc: Global,
    item: Option<usize>,
    value: &Value,
) -> Result<(Option<Style>, Option<Style>, Option<Style>, Style), InputError<BadField>>
    ensures { Gives (λ styles. styles) result (month_styles_of item (view value.now)) }
{
    let around: Option<Style> = optional(alloc, item, Field::ShowSurrounding, value)?;
    let header: Option<Style> = optional(alloc, item, Field::ShowMonthHeader, value)?;
    let weekdays: Option<Style> = optional(alloc, item, Field::ShowWeekdaysHeader, value)?;
    Ok((
        around,
        header,
        weekdays,
        read_style(alloc, item, Field::DefaultStyle, value)?,
    ))
}

#[tactic(auto, unfolding(crate::specs::Items::MonthlyFields::shown_monthly))]
pub(crate) fn read_monthly<'v>(
    alloc: Global,
    item: Option<usize>,
    value: &'v Value,
) -> Result<Calendar<'v>, InputError<BadField>>
    ensures { Gives calendar_data result (shown_monthly item (view value.now)) }
{
    let block: Option<Block<'v>> = optional(alloc, item, Field::Block, value)?;
    let date: Date = required(alloc, item, Field::Date, value)?;
    let events: Option<Vec<StyledDate>> = optional(alloc, item, Field::Events, value)?;
    let store = stored(alloc, events.unwrap_or(Vec::new(alloc)).as_slice())?;
    let styles = read_styles(alloc, item, value)?;
    Ok(styled(date, store, block, styles))
}
