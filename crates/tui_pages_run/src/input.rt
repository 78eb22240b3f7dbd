//! The fields of the input.

ghost use Rattle.std.specs.Prelude.{map};
ghost use Rattle.serde_json.specs.View.{view};
ghost use Rattle.tui_json.specs.Refusals.{Gives};
ghost use Rattle.tui_pages_lib.specs.Report.{cells_of, column_data};
ghost use Rattle.tui_pages_run.specs.Input.{column_of, input_data, input_of, record_of, sheet_data, sheet_of};

use crate::field::ReportField;
use crate::record_texts::RecordTexts;
use crate::refusal::PagesRefusal;
use serde_json::Value;
use std::alloc::Global;
use tui_json::{Counted, InputError, Kind, Numbered, Within, each_numbered, error_at, required};
use tui_layout::Constraint;
use tui_pages_lib::{Column, Record};

/// The size of the pages in columns and rows, and the title of each.
#[derive(Drop)]
pub(crate) struct Sheet<'v> {
    pub(crate) width: u16,
    pub(crate) height: u16,
    pub(crate) title: &'v str,
}

/// All fields of an input. Its strings are borrowed from the JSON value.
#[derive(Drop)]
pub(crate) struct Input<'v> {
    pub(crate) sheet: Sheet<'v>,
    pub(crate) columns: Vec<Column<'v>>,
    pub(crate) records: Vec<Record<'v>>,
}

/// Reads the input from a JSON value. Fails at the first field that is missing or not of its kind, of the input or of
/// one of its columns or records.
#[tactic(auto, unfolding(crate::specs::Input::input_of))]
pub(crate) fn read_input<'v>(
    alloc: Global,
    value: &'v Value,
) -> Result<Input<'v>, InputError<PagesRefusal>>
    ensures { Gives input_data result (input_of (view value.now)) }
{
    let sheet = read_sheet(alloc, value)?;
    let Counted(values): Counted<'v, 1, 32> = required(alloc, None, ReportField::Columns, value)?;
    let columns = each_numbered::<Column<'v>, ReportField>(alloc, (), values)?;
    let Counted(values): Counted<'v, 0, 10000> = required(
        alloc,
        None,
        ReportField::Records,
        value,
    )?;
    let records = each_numbered::<Record<'v>, ReportField>(alloc, (), values)?;
    Ok(Input {
        sheet,
        columns,
        records,
    })
}

#[tactic(auto, unfolding(crate::specs::Input::sheet_of))]
fn read_sheet<'v>(alloc: Global, value: &'v Value) -> Result<Sheet<'v>, InputError<PagesRefusal>>
    ensures { Gives sheet_data result (sheet_of (view value.now)) }
{
    let Within(width): Within<1, 200> = required(alloc, None, ReportField::Width, value)?;
    let Within(height): Within<4, 200> = required(alloc, None, ReportField::Height, value)?;
    let title: &'v str = required(alloc, None, ReportField::Title, value)?;
    Ok(Sheet {
        width,
        height,
        title,
    })
}

impl<'v> Numbered<'v, ReportField> for Column<'v> {
    ghost use Rattle.tui_pages_lib.specs.Report.{ColumnData};

    type Context = ();

    ghost AsData = { ColumnData };

    ghost as_data = { column_data };

    ghost tests = { λ context. column_of };

    #[tactic(auto, unfolding(crate::specs::Input::column_of))]
    fn read(
        alloc: Global,
        _known: (),
        number: usize,
        value: &'v Value,
    ) -> Result<Column<'v>, InputError<PagesRefusal>> {
        let at = Some(number);
        let name: &'v str = required(alloc, at, ReportField::Name, value)?;
        let size: Constraint = required(alloc, at, ReportField::Size, value)?;
        Ok(Column { name, size })
    }
}

impl<'v> Numbered<'v, ReportField> for Record<'v> {
    ghost use Rattle.std.specs.Prelude.{ℕ, List};

    type Context = ();

    ghost AsData = { List (List ℕ) };

    ghost as_data = { cells_of };

    ghost tests = { λ context. record_of };

    fn read(
        alloc: Global,
        _known: (),
        number: usize,
        value: &'v Value,
    ) -> Result<Record<'v>, InputError<PagesRefusal>> {
        match <RecordTexts<'v> as Kind<'v, ReportField>>::read(alloc, value) {
            Ok(RecordTexts(cells)) => Ok(Record { cells }),
            Err(why) => Err(error_at(ReportField::Records, Some(number), why)),
        }
    }
}
