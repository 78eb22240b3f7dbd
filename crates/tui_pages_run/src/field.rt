//! The fields of the input.

use crate::refusal::PagesRefusal;
use tui_json::Fields;

/// A field of the input in JSON.
#[derive(Clone, Copy, Debug, PartialEq, Eq)]
pub enum ReportField {
    Width,
    Height,
    Title,
    Columns,
    Name,
    Size,
    Records,
}

impl ReportField {
    ghost use Rattle.std.specs.Prelude.{◌≡◌};
    ghost use Rattle.tui_pages_run.specs.Refusals.{field_name};

    /// Returns the name of the field in the input, such as `columns`.
    pub fn name(&self) -> &'static str
        ensures { result.now ≡ field_name self.now }
    {
        match self {
            ReportField::Width => "width",
            ReportField::Height => "height",
            ReportField::Title => "title",
            ReportField::Columns => "columns",
            ReportField::Name => "name",
            ReportField::Size => "size",
            ReportField::Records => "records",
        }
    }
}

impl Fields for ReportField {
    ghost use Rattle.tui_pages_run.specs.Refusals.{bad_input, field_name};

    type Refusal = PagesRefusal;

    ghost key = { field_name };

    ghost refusal = { bad_input };

    fn key(&self) -> &'static str {
        self.name()
    }

    fn refusal(self, at: Option<usize>) -> PagesRefusal {
        PagesRefusal::BadInput { at, field: self }
    }
}
