//! Reports that are read from JSON.

ghost use Rattle.std.specs.Prelude.{◌≡◌, IfOk};
ghost use Rattle.serde_json.specs.View.{view};
ghost use Rattle.tui_json.specs.Refusals.{Gives};
ghost use Rattle.tui_pages_lib.specs.Strokes.{page_area};
ghost use Rattle.tui_pages_run.specs.Input.{report_in};

use crate::input::read_input;
use crate::refusal::PagesRefusal;
use serde_json::Value;
use std::alloc::Global;
use tui_cells::Rect;
use tui_json::InputError;
use tui_pages_lib::{Report, ReportError};

/// A report, and the area of its pages.
#[derive(Drop)]
pub(crate) struct PagedReport<'v> {
    pub(crate) area: Rect,
    pub(crate) report: Report<'v>,
}

/// Reads the report from a JSON value. Fails with the error of the first test that fails. The last test is that no
/// record has more lines than a report may have.
#[tactic(auto, unfolding(crate::specs::Input::report_in))]
pub(crate) fn read_report<'v>(
    alloc: Global,
    value: &'v Value,
) -> Result<PagedReport<'v>, InputError<PagesRefusal>>
    ensures gives { Gives (λ paged. paged.report) result (report_in (view value.now)) }
    ensures area { IfOk result (λ paged. paged.area ≡ page_area paged.report) }
{
    let input = read_input(alloc, value)?;
    let (width, height) = (input.sheet.width, input.sheet.height);
    let made = Report::new(
        alloc,
        width,
        height,
        input.sheet.title,
        input.columns,
        input.records,
    );
    match made {
        Ok(report) => Ok(PagedReport {
            area: Rect::new(0, 0, width, height),
            report,
        }),
        Err(ReportError::TooTall { place }) => {
            Err(InputError::Refused(PagesRefusal::TooTall { place }))
        }
        Err(ReportError::NoMemory) => Err(InputError::NoMemory),
        // The width and the height were read within the bounds of a report.
        Err(ReportError::TooSmall) => unreachable!(),
    }
}
