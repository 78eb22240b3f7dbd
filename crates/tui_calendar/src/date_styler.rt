//! Styles of dates.

ghost use Rattle.std.specs.Prelude.{◌≡◌};
ghost use Rattle.tui_calendar.specs.Month.{DateData, date_data};
ghost use Rattle.tui_cells.specs.declared.style.Style.{Style};

use jiff::civil::Date;
use tui_cells::Style;

/// Gives each date a style.
pub trait DateStyler {
    /// The style of each date.
    ghost date_style: { Self → DateData → Style };

    /// Returns the style of a date.
    fn get_style(&self, date: Date) -> Style
        ensures { result ≡ date_style self.now (date_data date) };
}
