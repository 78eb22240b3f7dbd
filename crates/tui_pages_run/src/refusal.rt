//! Reasons why an input is rejected.

ghost use Rattle.tui_io.specs.Causes.{Writes};
ghost use Rattle.tui_pages_run.specs.Refusals.{refusal_line};
ghost use Rattle.tui_pages_run.specs.declared.refusal.PagesRefusal.TheVariants as refusals;

use crate::field::ReportField;
use tui_io::{Print, Sink, WriteFault};
use tui_program::write_refused_field;

/// Why the program rejects an input in JSON.
#[derive(Clone, Copy, Debug, PartialEq, Eq)]
pub enum PagesRefusal {
    /// A field is missing or of the wrong kind: of the input, or of the column or the record with this number, from 0.
    BadInput {
        at: Option<usize>,
        field: ReportField,
    },
    /// A record has more than 4096 lines. `place` is the number of the first such record, from 0.
    TooTall {
        place: usize,
    },
}

/// Writes the line of a rejection. On `WriteFault` the sink has taken the first bytes, but not all of them. Does not
/// allocate.
pub(crate) fn write_refusal<K: Sink>(refusal: PagesRefusal, sink: &mut K) -> Result<(), WriteFault>
    ensures { Writes (K.observed sink.old) (K.observed sink.new) result (refusal_line refusal) }
{
    match refusal {
        PagesRefusal::BadInput { at, field } => write_refused_field(field.name(), at, sink),
        PagesRefusal::TooTall { place } => write_too_tall(place, sink),
    }
}

fn write_too_tall<K: Sink>(place: usize, sink: &mut K) -> Result<(), WriteFault>
    ensures { Writes (K.observed sink.old) (K.observed sink.new) result (refusal_line (refusals.TooTall place)) }
{
    let mut print = Print::new();
    print.text(sink, "refused: record ");
    print.number(sink, place);
    print.text(sink, " too tall\n");
    print.end(sink)
}
