//! Laws of all months.

ghost use Rattle.jiff_core.specs.declared.civil.date.Date.{Date};
ghost use Rattle.tui_calendar.specs.Month.{IsMonth, date_data};

/// How the month of a date is arranged in weeks, which start on Sunday: each place has the date of its day. Each day of
/// the month has exactly one place, in the column of its weekday. Each week has a day of the month.
pub fn month_laws()
    ensures { (d : Date) → IsMonth (date_data d) }
{}
