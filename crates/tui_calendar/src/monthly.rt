//! The calendar of a month.

ghost use Rattle.std.specs.Prelude.{◌≡◌, ◌≤◌, Some};
ghost use Rattle.tui_calendar.specs.Month.{date_data};
ghost use Rattle.tui_calendar.specs.Monthly.{monthly_data, monthly_height, monthly_width, rows_of, weeks_only};
ghost use Rattle.tui_frames.specs.Block.{block_data};

mod rendering;
mod texts;

use crate::date_styler::DateStyler;
use crate::month::weeks;
use jiff::civil::Date;
use tui_cells::{FARTHEST_EDGE, Style};
use tui_frames::{Block, beside, columns_if_some, rows_if_some};

/// The days of a month week by week. Each week starts on Sunday and has its own row, 21 columns wide. The style of each
/// day depends on its date. The names of the month and of the weekdays are above, if they are shown.
#[derive(Debug, PartialEq, Eq, Hash, Drop)]
pub struct Monthly<'a, DS: DateStyler> {
    display_date: Date,
    events: DS,
    month_header: Option<Style>,
    weekdays_header: Option<Style>,
    surrounding: Option<Style>,
    default_style: Style,
    block: Option<Block<'a>>,
}

impl<'a, DS: DateStyler> Monthly<'a, DS> {
    /// Returns the month of a date, with the styles of its days, without headers, surrounding days and block.
    pub fn new(display_date: Date, events: DS) -> Monthly<'a, DS>
        ensures is { monthly_data result ≡ weeks_only (date_data display_date) }
        ensures events { result.events ≡ events }
    {
        Monthly {
            display_date,
            events,
            month_header: None,
            weekdays_header: None,
            surrounding: None,
            default_style: Style::new(),
            block: None,
        }
    }

    /// Shows the days of the previous and the next month in the first and the last week. Their style is the default
    /// style, patched with `style` and then with the style of the date.
    pub fn show_surrounding(mut self, style: Style) -> Monthly<'a, DS>
        ensures is { monthly_data result ≡ record (monthly_data self.entry) { surrounding = Some style } }
        ensures events { result.events ≡ self.entry.events }
    {
        self.surrounding = Some(style);
        self
    }

    /// Shows the names of the weekdays in a style.
    pub fn show_weekdays_header(mut self, style: Style) -> Monthly<'a, DS>
        ensures is { monthly_data result ≡ record (monthly_data self.entry) { weekdays_header = Some style } }
        ensures events { result.events ≡ self.entry.events }
    {
        self.weekdays_header = Some(style);
        self
    }

    /// Shows the name of the month and the year in a style.
    pub fn show_month_header(mut self, style: Style) -> Monthly<'a, DS>
        ensures is { monthly_data result ≡ record (monthly_data self.entry) { month_header = Some style } }
        ensures events { result.events ≡ self.entry.events }
    {
        self.month_header = Some(style);
        self
    }

    /// Sets the style of the days. The style of each date patches it. The spaces between days have only its background.
    pub fn default_style(mut self, style: Style) -> Monthly<'a, DS>
        ensures is { monthly_data result ≡ record (monthly_data self.entry) { default_style = style } }
        ensures events { result.events ≡ self.entry.events }
    {
        self.default_style = style;
        self
    }

    /// Sets the block around the month. The month is drawn in the block's inner area.
    pub fn block(mut self, block: Block<'a>) -> Monthly<'a, DS>
        ensures is { monthly_data result ≡ record (monthly_data self.entry) { block = Some (block_data block.entry) } }
        ensures events { result.events ≡ self.entry.events }
    {
        self.block = Some(block);
        self
    }

    /// Returns the columns of a week and of the block, at most 65535.
    pub fn width(&self) -> u16
        ensures { result ≡ monthly_width (monthly_data self.now) }
    {
        beside(21, columns_if_some(&self.block)).min(FARTHEST_EDGE as usize) as u16
    }

    /// Returns the rows of the weeks, of the headers that are shown, and of the block, at most 65535.
    pub fn height(&self) -> u16
        ensures { result ≡ monthly_height (monthly_data self.now) }
    {
        let rows = weeks(self.display_date)
            + (rows_of(self.month_header) + rows_of(self.weekdays_header));
        beside(usize::from(rows), rows_if_some(&self.block)).min(FARTHEST_EDGE as usize) as u16
    }
}

/// Returns the rows of a header: 1 if it is shown, otherwise 0.
fn rows_of(header: Option<Style>) -> u8
    ensures is { result ≡ rows_of header }
    ensures bound { result ≤ 1 }
{
    match header {
        None => 0,
        Some(_) => 1,
    }
}
