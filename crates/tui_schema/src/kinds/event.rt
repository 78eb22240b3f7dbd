//! Dates with a style: `{"date": .., "style": ..}`.

ghost use Rattle.tui_schema.specs.Kinds.StyledDate.{event_of};

use crate::field::Field;
use crate::kinds::member::{member, member_fault};
use jiff::civil::Date;
use serde_json::Value;
use std::alloc::Global;
use tui_cells::{Mem, Style};
use tui_json::{Explains, Fault, Kind, KindError, Wanted};

/// A date with a style.
#[derive(Drop)]
pub(crate) struct StyledDate {
    pub(crate) date: Date,
    pub(crate) style: Style,
}

impl<'v> Kind<'v, Field> for StyledDate {
    ghost use Rattle.tui_calendar.specs.Month.{DateData};
    ghost use Rattle.tui_cells.specs.declared.style.Style.{Style};
    ghost use Rattle.tui_schema.specs.Kinds.StyledDate.{event_data};

    ghost AsData = { DateData × Style };

    ghost as_data = { event_data };

    ghost kind = { event_of };

    #[tactic(auto, unfolding(crate::specs::Kinds::StyledDate::event_of))]
    fn read(alloc: Global, value: &'v Value) -> Result<StyledDate, KindError> {
        let date: Date = member(alloc, value, "date")?;
        let style: Style = member(alloc, value, "style")?;
        Ok(StyledDate { date, style })
    }
}

impl<'v> Explains<'v, Field> for StyledDate {
    ghost use Rattle.tui_schema.specs.Faults.{an_event, event_parts};

    ghost wanted = { an_event };

    ghost part_fault = { event_parts };

    fn wanted() -> Wanted<'v> {
        Wanted::Words("an object with `date` and `style`")
    }

    #[tactic(auto, unfolding(crate::specs::Faults::event_parts))]
    fn part_fault(alloc: Global, value: &'v Value) -> Mem<Option<Fault<'v>>> {
        if !value.is_object() {
            return Ok(None);
        }
        let date = member_fault::<Date>(alloc, value, "date")?;
        let style = member_fault::<Style>(alloc, value, "style")?;
        Ok(date.or(style))
    }
}
