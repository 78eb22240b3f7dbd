//! Writing pages.

ghost use Rattle.std.specs.Prelude.{◌≡◌, ◌<◌, Bool, Err, IfOk, OnOk, if◌then◌else◌, length};
ghost use Rattle.tui_io.specs.Causes.{WritesIf, Writes};
ghost use Rattle.tui_io.specs.Prints.{Prints};
ghost use Rattle.tui_pages_lib.specs.Strokes.{body_area, page_area};
ghost use Rattle.tui_program.specs.Outcomes.{AnswersWith, no_refusal, nothing};
ghost use Rattle.tui_program.specs.declared.stop.Stop.TheVariants as stop;
ghost use Rattle.tui_pages_run.specs.Printed.{AreAllPages, AreFewerPages, ShowsHead, count_line, page_rows, page_text};

use crate::refusal::PagesRefusal;
use std::alloc::Global;
use tui_cells::{Buffer, Mem, NoMemory, Rect};
use tui_io::{Print, Sink, WriteFault};
use tui_pages_lib::Report;
use tui_program::{Outcome, Stop};
use tui_rows::emit_rows;

/// The rows of the title and the names.
const HEAD: u16 = 2;

/// Writes the pages. They are drawn one at a time into one buffer, with the title and the names drawn only once. All
/// pages go through one `Print`. If memory runs out, the pages before are written.
pub(crate) fn print_pages<K: Sink>(
    alloc: Global,
    area: Rect,
    report: &Report<'_>,
    sink: &mut K,
) -> Outcome<(), PagesRefusal>
    requires { area ≡ page_area report.now }
    ensures { AnswersWith (AreAllPages report.now) (AreFewerPages report.now) no_refusal (K.observed sink.old) (K.observed sink.new) result }
{
    let mut page = with_head(alloc, area, report)?;
    let body = area.rows_from(HEAD, area.height);
    let mut print = Print::new();
    'pages: for at in 0..report.page_count() {
        match draw_page(alloc, body, report, at, &mut page) {
            Ok(()) => emit_page(&mut print, sink, report, at, &page),
            Err(NoMemory) => return ended(&mut print, sink, Err(Stop::NoMemory)),
        }
    }
    ended(&mut print, sink, Ok(()))
}

/// Writes what is still in the print. Fails with `WriteFault` if a write failed, and otherwise returns `answer`.
fn ended<K: Sink>(
    print: &mut Print,
    sink: &mut K,
    answer: Outcome<(), PagesRefusal>,
) -> Outcome<(), PagesRefusal>
    ensures { (goes : Bool) × WritesIf (K.observed sink.old) (K.observed sink.new) print.old.ok_so_far goes print.old.bytes
        × (result ≡ (if goes then answer else Err stop.WriteFault)) }
{
    print.end(sink)?;
    answer
}

/// Returns a page's buffer with only the title and the names drawn.
fn with_head(alloc: Global, area: Rect, report: &Report<'_>) -> Mem<Buffer>
    requires { area ≡ page_area report.now }
    ensures { IfOk result (λ page. ShowsHead report.now page) }
{
    let mut page = Buffer::empty(alloc, area)?;
    report.draw_head(alloc, &mut page)?;
    Ok(page)
}

/// Draws a page into the buffer of another one. Before that, all rows are made blank, except those of the title and the
/// names.
fn draw_page(
    alloc: Global,
    body: Rect,
    report: &Report<'_>,
    at: usize,
    page: &mut Buffer,
) -> Mem<()>
    requires body { body ≡ body_area report.now }
    requires head { ShowsHead report.now page.old }
    requires within { at < length report.now.pages }
    ensures head { OnOk result (ShowsHead report.now page.new) }
    ensures rows { OnOk result (page.new.rows ≡ page_rows report.now at) }
{
    page.reset(body);
    report.draw_body(alloc, at, page)?;
    // The contract of `height` says that the rows have the size of the area. The proof needs that.
    let _height = page.height();
    Ok(())
}

/// Adds a page to the print.
fn emit_page<K: Sink>(
    print: &mut Print,
    sink: &mut K,
    report: &Report<'_>,
    at: usize,
    page: &Buffer,
)
    requires within { at < length report.now.pages }
    requires drawn { page.now.rows ≡ page_rows report.now at }
    ensures { Prints (K.observed sink.old) (K.observed sink.new) print.old print.new (page_text report.now at) }
{
    let count = report.page_count();
    print.text(sink, "p ");
    print.number(sink, at + 1);
    print.text(sink, " ");
    print.number(sink, count);
    print.text(sink, "\n");
    emit_rows(print, page, sink);
}

/// Writes the number of pages.
pub(crate) fn print_count<K: Sink>(report: &Report<'_>, sink: &mut K) -> Outcome<(), PagesRefusal>
    ensures { AnswersWith (λ text. text ≡ count_line report.now) nothing no_refusal (K.observed sink.old) (K.observed sink.new) result }
{
    write_count(report, sink)?;
    Ok(())
}

fn write_count<K: Sink>(report: &Report<'_>, sink: &mut K) -> Result<(), WriteFault>
    ensures { Writes (K.observed sink.old) (K.observed sink.new) result (count_line report.now) }
{
    let mut print = Print::new();
    print.text(sink, "pages ");
    print.number(sink, report.page_count());
    print.text(sink, "\n");
    print.end(sink)
}
