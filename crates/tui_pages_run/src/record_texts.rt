//! The texts of a record in JSON.

use crate::field::ReportField;
use serde_json::Value;
use std::alloc::Global;
use tui_cells::Mem;
use tui_json::{Counted, Explains, Fault, Kind, KindError, Wanted, each, elements_fault};

/// An array of at most 32 strings, which are borrowed from the JSON value.
#[derive(Drop)]
pub(crate) struct RecordTexts<'v>(pub(crate) Vec<&'v str>);

impl<'v> Kind<'v, ReportField> for RecordTexts<'v> {
    ghost use Rattle.std.specs.Prelude.{ℕ, List, map};
    ghost use Rattle.tui_pages_run.specs.Input.{texts_of};

    ghost AsData = { List (List ℕ) };

    ghost as_data = { λ texts. map (λ text. text.now) texts.0.items };

    ghost kind = { texts_of };

    #[tactic(auto, unfolding(crate::specs::Input::texts_of))]
    fn read(alloc: Global, value: &'v Value) -> Result<RecordTexts<'v>, KindError> {
        let Counted(values) = <Counted<'v, 0, 32> as Kind<'v, ReportField>>::read(alloc, value)?;
        Ok(RecordTexts(each::<&'v str, ReportField>(alloc, values)?))
    }
}

impl<'v> Explains<'v, ReportField> for RecordTexts<'v> {
    ghost use Rattle.tui_json.specs.Faults.{elements_fault};
    ghost use Rattle.tui_pages_run.specs.Faults.{some_texts, string_fault};

    ghost wanted = { some_texts };

    ghost part_fault = { elements_fault string_fault };

    fn wanted() -> Wanted<'v> {
        Wanted::Values(0, 32, "strings")
    }

    fn part_fault(alloc: Global, value: &'v Value) -> Mem<Option<Fault<'v>>> {
        elements_fault::<&'v str, ReportField>(alloc, value)
    }
}
