//! Spans and lines that are set by the calls that no program makes.

use std::alloc::Global;
use test_help::shows;
use tui_cells::{Buffer, Mem, Position, Rect, Style};
use tui_text::{Line, Span, set_line, set_span};

const ROW: Rect = Rect {
    x: 0,
    y: 0,
    width: 6,
    height: 1,
};

/// Sets a span, and two columns of a line. The columns after them.
fn set(buffer: &mut Buffer, line: &Line) -> Mem<(u16, u16)> {
    let span = Span::styled("xy", Style::new());
    let after_span = set_span(buffer, ROW, Position::new(0, 0), &span, 9)?;
    let after_line = set_line(buffer, ROW, Position::new(3, 0), line, 2)?;
    Ok((after_span, after_line))
}

#[test]
fn spans_and_lines_are_set(rt: HostRuntime) -> Mem<()> {
    let mut buffer = Buffer::from_rows(rt.alloc(), "------")?;
    let line = Line::raw(rt.alloc(), "pqr")?;
    assert!(&rt; set(&mut buffer, &line)? == (2, 5));
    assert!(&rt; shows(rt.alloc(), &buffer, "xy-pq-\n")?);
    Ok(())
}
