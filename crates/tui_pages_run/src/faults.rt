//! Where a rejected report has the value that is not valid.

ghost use Rattle.std.specs.Prelude.{◌≡◌, IfOk, option_map, string_bytes};
ghost use Rattle.serde_json.specs.View.{view};
ghost use Rattle.tui_json.specs.Explanation.{explanation};
ghost use Rattle.tui_json.specs.Faults.{fault_data};
ghost use Rattle.tui_pages_run.specs.Faults.{column_fault, field_fault, report_fault};
ghost use Rattle.tui_pages_run.specs.Refusals.{bad_input};
ghost use Rattle.tui_pages_run.specs.declared.refusal.PagesRefusal.TheVariants as refusals;

use crate::field::ReportField;
use crate::record_texts::RecordTexts;
use crate::refusal::PagesRefusal;
use serde_json::Value;
use std::alloc::Global;
use tui_cells::Mem;
use tui_json::{
    Counted, Fault, Wanted, Within, explain, fault_of, inside_at, member_fault, value_at,
};
use tui_layout::Constraint;

/// Returns what is wrong with a report that was rejected, in words: where the value is, what is wanted there, and what
/// is there. Fails with `NoMemory` if there is no memory for the text.
pub fn explain_report(alloc: Global, value: &Value, bad: PagesRefusal) -> Mem<Option<String>>
    ensures { IfOk result (λ text. option_map string_bytes text ≡ option_map explanation (report_fault bad (view value.now))) }
{
    explain(alloc, report_fault(alloc, value, bad)?)
}

fn report_fault<'v>(alloc: Global, value: &'v Value, bad: PagesRefusal) -> Mem<Option<Fault<'v>>>
    ensures { IfOk result (λ found. option_map fault_data found ≡ report_fault bad (view value.now)) }
{
    match bad {
        PagesRefusal::TooTall { place } => tall_fault(alloc, value, place),
        PagesRefusal::BadInput { at: None, field } => field_fault(alloc, value, field),
        PagesRefusal::BadInput {
            at: Some(number),
            field,
        } => item_fault(alloc, value, number, field),
    }
}

/// Returns the fault of a record that has too many lines.
fn tall_fault<'v>(alloc: Global, value: &'v Value, place: usize) -> Mem<Option<Fault<'v>>>
    ensures { IfOk result (λ found. option_map fault_data found ≡ report_fault (refusals.TooTall place) (view value.now)) }
{
    let wanted = Wanted::Words("at most 4096 lines in its columns");
    let found = match value_at(value, "records", place) {
        Some(record) => Some(Fault::whole(alloc, wanted, record)),
        None => None,
    };
    inside_at(found, "records", place)
}

/// Returns the fault of a field of the report.
fn field_fault<'v>(alloc: Global, value: &'v Value, field: ReportField) -> Mem<Option<Fault<'v>>>
    ensures { IfOk result (λ found. option_map fault_data found ≡ field_fault field (view value.now)) }
{
    match field {
        ReportField::Width => member_fault::<Within<1, 200>, ReportField>(alloc, value, "width"),
        ReportField::Height => member_fault::<Within<4, 200>, ReportField>(alloc, value, "height"),
        ReportField::Title => member_fault::<&'v str, ReportField>(alloc, value, "title"),
        ReportField::Columns => {
            member_fault::<Counted<'v, 1, 32>, ReportField>(alloc, value, "columns")
        }
        ReportField::Records => {
            member_fault::<Counted<'v, 0, 10000>, ReportField>(alloc, value, "records")
        }
        ReportField::Name | ReportField::Size => Ok(None),
    }
}

/// Returns the fault of the record with this number, or of a field of the column with this number.
fn item_fault<'v>(
    alloc: Global,
    value: &'v Value,
    number: usize,
    field: ReportField,
) -> Mem<Option<Fault<'v>>>
    ensures { IfOk result (λ found. option_map fault_data found ≡ report_fault (bad_input (Some number) field) (view value.now)) }
{
    if field == ReportField::Records {
        let found = match value_at(value, "records", number) {
            Some(record) => fault_of::<RecordTexts<'v>, ReportField>(alloc, record)?,
            None => None,
        };
        return inside_at(found, "records", number);
    }
    let found = match value_at(value, "columns", number) {
        Some(column) => column_fault(alloc, column, field)?,
        None => None,
    };
    inside_at(found, "columns", number)
}

/// Returns the fault of a field of a column.
fn column_fault<'v>(alloc: Global, value: &'v Value, field: ReportField) -> Mem<Option<Fault<'v>>>
    ensures { IfOk result (λ found. option_map fault_data found ≡ column_fault field (view value.now)) }
{
    match field {
        ReportField::Name => member_fault::<&'v str, ReportField>(alloc, value, "name"),
        ReportField::Size => member_fault::<Constraint, ReportField>(alloc, value, "size"),
        _ => Ok(None),
    }
}
