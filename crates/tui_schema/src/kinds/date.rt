//! Dates: `[year, month, day]`.

ghost use Rattle.std.specs.Prelude.{◌≡◌, option_map};
ghost use Rattle.tui_calendar.specs.Month.{date_data};
ghost use Rattle.tui_schema.specs.Kinds.Date.{civil_of, date_of};

use crate::field::Field;
use crate::kinds::member::read;
use jiff::civil::Date;
use serde_json::Value;
use std::alloc::Global;
use tui_cells::Mem;
use tui_json::{Explains, Fault, Kind, KindError, Wanted, elements};

/// Returns the date with these numbers, if the calendar has it.
fn civil_date(year: i16, month: i8, day: i8) -> Option<Date>
    ensures { option_map date_data result ≡ civil_of year month day }
{
    Date::new(year, month, day).ok()
}

impl<'v> Kind<'v, Field> for Date {
    ghost use Rattle.tui_calendar.specs.Month.{DateData};

    ghost AsData = { DateData };

    ghost as_data = { date_data };

    ghost kind = { date_of };

    #[tactic(auto, using(crate::proofs::Dates::three_other), unfolding(crate::specs::Kinds::Date::date_of))]
    fn read(alloc: Global, value: &'v Value) -> Result<Date, KindError> {
        let [year, month, day] = elements(value)? else {
            return Err(KindError::WrongKind);
        };
        let year: i16 = read(alloc, year)?;
        let month: i8 = read(alloc, month)?;
        let day: i8 = read(alloc, day)?;
        civil_date(year, month, day).ok_or(KindError::WrongKind)
    }
}

impl<'v> Explains<'v, Field> for Date {
    ghost use Rattle.tui_json.specs.Faults.{no_parts};
    ghost use Rattle.tui_schema.specs.Faults.{a_date};

    ghost wanted = { a_date };

    ghost part_fault = { no_parts };

    fn wanted() -> Wanted<'v> {
        Wanted::Words("`[year, month, day]`, a day of the calendar")
    }

    fn part_fault(_alloc: Global, _value: &'v Value) -> Mem<Option<Fault<'v>>> {
        Ok(None)
    }
}
