//! Months by the calls that no program makes.

use crate::drawing::draws;
use jiff::civil::Date;
use std::alloc::Global;
use tui_calendar::{CalendarEventStore, DateStyler, Monthly};
use tui_cells::{Mem, Style};

/// One style for all dates.
#[derive(Clone, Copy, Debug, PartialEq, Eq, Hash)]
struct Everywhere {
    style: Style,
}

impl DateStyler for Everywhere {
    ghost date_style = { λ everywhere d. everywhere.style };

    fn get_style(&self, _date: Date) -> Style {
        self.style
    }
}

/// Returns a date; 1 January of the year 0 if the calendar does not have it.
fn date(year: i16, month: i8, day: i8) -> Date {
    Date::new(year, month, day).unwrap_or(Date::ZERO)
}

#[test]
fn a_custom_style_is_read_for_each_date(rt: HostRuntime) -> Mem<()> {
    let everywhere = Everywhere {
        style: Style::new(),
    };
    let february = Monthly::new(date(2015, 2, 28), everywhere);
    // A day is cut where its columns end.
    assert!(&rt; draws(rt.alloc(), &february, (5, 3), "  1  \n  8  \n 15 1\n")?);
    Ok(())
}

fn store(alloc: Global) -> Mem<CalendarEventStore> {
    CalendarEventStore::on(alloc, date(2023, 4, 1), Style::new())
}

#[test]
fn a_copied_store_may_be_borrowed(rt: HostRuntime) -> Mem<()> {
    let copy = store(rt.alloc())?.clone()?;
    let april = Monthly::new(date(2023, 4, 1), &copy);
    assert!(&rt; draws(rt.alloc(), &april, (21, 1), "                    1\n")?);
    Ok(())
}
