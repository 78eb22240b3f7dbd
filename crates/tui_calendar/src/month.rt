//! The weeks of a month, counted in days of the calendar.

ghost use Rattle.std.specs.Prelude.{◌≡◌, neg_ℤ, ◌≤ℤ◌, ◌+◌, ◌<◌, ◌≤◌, ◌*◌, pos, ◌+ℤ◌, option_map};
ghost use Rattle.tui_calendar.specs.Month.{IsDay, date_data, leading_days_of, days_of, place_of, start_of, weeks_of};

use jiff::civil::Date;
use jiff_core::civil;

/// Returns how many places of the first week are before the first of the month.
#[tactic(auto, unfolding(crate::specs::Month::leading_days_of))]
fn leading_days(date: Date) -> u8
    ensures value { result ≡ leading_days_of (date_data date) }
    ensures bound { result < 7 }
{
    date.first_of_month().weekday().next().index()
}

/// Returns the number of days of the month.
fn days(date: Date) -> u8
    ensures value { result ≡ days_of (date_data date) }
    ensures bound { result ≤ 31 }
{
    let plain = date.to_plain();
    civil::days_in_month(plain.year, plain.month)
}

/// Returns how many weeks have a day of the month.
pub(crate) fn weeks(date: Date) -> u8
    ensures value { result ≡ weeks_of (date_data date) }
    ensures bound { result ≤ 6 }
{
    (leading_days(date) + days(date) + 6) / 7
}

/// Returns the day number of the first place.
pub(crate) fn start(date: Date) -> i32
    ensures value { result ≡ start_of (date_data date) }
    ensures low { neg_ℤ (pos 4_371_593) ≤ℤ result }
    ensures high { result ≤ℤ pos 2_932_896 }
{
    date.first_of_month().to_plain().to_unix_epoch_day() - i32::from(leading_days(date))
}

/// Returns the date `i` days after a day, if the calendar has it.
fn day_at(start: i32, i: u8) -> Option<Date>
    ensures { IsDay (start +ℤ pos i) (option_map date_data result) }
{
    match civil::Date::from_unix_epoch_day(i64::from(start) + i64::from(i)) {
        Ok(plain) => Some(Date::from_plain(plain)),
        Err(_) => None,
    }
}

/// Returns the date in place `i`, counted from the first Sunday.
pub(crate) fn place(date: Date, start: i32, i: u8) -> Option<Date>
    requires start { start ≡ start_of (date_data date) }
    requires inside { i < 7 * weeks_of (date_data date) }
    ensures { option_map date_data result ≡ place_of (date_data date) i }
{
    day_at(start, i)
}
