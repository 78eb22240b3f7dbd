//! The texts of a month, which are built without allocating.

ghost use Rattle.std.specs.Prelude.{◌≡◌, ◌+◌, ◌/◌, ◌<◌, ◌≤◌, if◌then◌else◌, length, nat_lt, true};
ghost use Rattle.std.specs.Int.{IsInRange};
ghost use Rattle.std.specs.List.{list_all};
ghost use Rattle.tui_calendar.specs.Month.{date_data};
ghost use Rattle.tui_calendar.specs.Monthly.{day_text, heading_text, month_name};
ghost use Rattle.tui_clusters.specs.Printable.{is_printable};

use arrayvec::ArrayString;
use itoa::Buffer as Digits;
use jiff::civil::Date;

fn month_name(month: u8) -> &'static str
    requires { IsInRange 1 12 month }
    ensures is { result.now ≡ month_name month }
    ensures short { length result.now ≤ 9 }
{
    match month {
        1 => "January",
        2 => "February",
        3 => "March",
        4 => "April",
        5 => "May",
        6 => "June",
        7 => "July",
        8 => "August",
        9 => "September",
        10 => "October",
        11 => "November",
        _ => "December",
    }
}

/// Returns the name of the month and the year.
#[tactic(auto, using(crate::proofs::MonthTexts::heading_printable), unfolding(crate::specs::Monthly::heading_text))]
pub(super) fn heading(date: Date) -> ArrayString<16>
    ensures is { result.bytes ≡ heading_text (date_data date) }
    ensures printable { list_all is_printable result.bytes ≡ true }
{
    let plain = date.to_plain();
    let mut digits = Digits::new();
    let mut text = ArrayString::new();
    text.push_str(month_name(plain.month));
    text.push_str(" ");
    text.push_str(digits.format(plain.year));
    text
}

fn tens(day: u8) -> char
    requires { day < 100 }
    ensures { result ≡ (if nat_lt day 10 then 32 else 48 + day / 10) }
{
    if day < 10 {
        ' '
    } else {
        char::from(b'0' + day / 10)
    }
}

/// Returns the number of a day, right-aligned in two columns.
#[tactic(auto, using(crate::proofs::MonthTexts::day_printable), unfolding(crate::specs::Monthly::day_text))]
pub(super) fn day(day: u8) -> ArrayString<2>
    requires { day < 100 }
    ensures is { result.bytes ≡ day_text day }
    ensures printable { list_all is_printable result.bytes ≡ true }
{
    let mut text = ArrayString::new();
    text.push(tens(day));
    text.push(char::from(b'0' + day % 10));
    text
}
