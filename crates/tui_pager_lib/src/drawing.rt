//! Drawing the parts of a pager.

ghost use Rattle.std.specs.Prelude.{◌≡◌, ◌+◌, ◌-◌, ◌^◌, ◌<◌, IfSome, OnOk};
ghost use Rattle.tui_cells.specs.Buffer.{IsFilled};
ghost use Rattle.tui_cells.specs.Cell.{blank};
ghost use Rattle.tui_cells.specs.Layers.{Painted};
ghost use Rattle.tui_lists.specs.List.{list_data};
ghost use Rattle.tui_lists.specs.ListStrokes.{list_layers};
ghost use Rattle.tui_lists.specs.ScrollbarStrokes.{scrollbar_layers};
ghost use Rattle.tui_lists.specs.Scrollbar.{scrollbar_data};
ghost use Rattle.tui_para.specs.Paragraph.{paragraph_of};
ghost use Rattle.tui_para.specs.Rendering.{paragraph_layers};
ghost use Rattle.tui_text.specs.Text.{raw_text};
ghost use Rattle.tui_pager_lib.specs.Laws.{SelectsEntry};
ghost use Rattle.tui_pager_lib.specs.Lines.{AreWithin};
ghost use Rattle.tui_pager_lib.specs.Screen.{
  bar,
  bar_area,
  bar_state,
  body_area,
  body_paragraph,
  last_row,
  list_state,
  entry_number,
  page_area,
  last_row_text,
  titles_area,
};

use crate::body::body_paragraph;
use crate::size::PagerSize;
use crate::state::PagerState;
use std::alloc::Global;
use tui_cells::{Buffer, Mem, Rect, StatefulWidget, Widget};
use tui_lists::{List, ListState, Scrollbar, ScrollbarOrientation, ScrollbarState};
use tui_para::Paragraph;
use tui_text::Text;

/// Draws the list of titles, at the left.
pub(crate) fn draw_titles(
    alloc: Global,
    titles: &List<'_>,
    size: PagerSize,
    state: PagerState,
    buf: &mut Buffer,
) -> Mem<()>
    requires { buf.old.area ≡ page_area size.width size.height }
    ensures drawn { OnOk result (Painted (list_layers (list_data titles.now) (list_state state) (titles_area size.width size.height)) buf.old buf.new) }
    ensures area { buf.new.area ≡ buf.old.area }
{
    let area = Rect {
        x: 0,
        y: 0,
        width: size.width / 3,
        height: size.height - 1,
    };
    let mut kept = ListState::default()
        .with_offset(state.offset)
        .with_selected(state.selected);
    StatefulWidget::render(titles, alloc, area, buf, &mut kept)
}

/// Draws a body from one of its lines on, at the right.
fn draw_lines(alloc: Global, body: &str, line: u16, size: PagerSize, buf: &mut Buffer) -> Mem<()>
    requires { buf.old.area ≡ page_area size.width size.height }
    ensures drawn { OnOk result (Painted (paragraph_layers (body_paragraph body.now line) (body_area size.width size.height)) buf.old buf.new) }
    ensures area { buf.new.area ≡ buf.old.area }
{
    let area = Rect {
        x: size.width / 3,
        y: 0,
        width: size.width - size.width / 3,
        height: size.height - 1,
    };
    body_paragraph(alloc, body, line)?.render(alloc, area, buf)
}

/// A body, and the offsets at which its lines start, as far as they are known.
#[derive(Clone, Copy)]
pub(crate) struct BodyText<'a> {
    pub(crate) text: &'a str,
    pub(crate) line_starts: &'a [usize],
}

/// Draws the same. If the offset at which the line starts is known, the text before it is not read.
pub(crate) fn draw_body(
    alloc: Global,
    body: BodyText<'_>,
    line: u16,
    size: PagerSize,
    buf: &mut Buffer,
) -> Mem<()>
    requires area { buf.old.area ≡ page_area size.width size.height }
    requires line_starts { AreWithin size.width body.text.now body.line_starts.now }
    ensures drawn { OnOk result (Painted (paragraph_layers (body_paragraph body.entry.text.now line) (body_area size.width size.height)) buf.old buf.new) }
    ensures area { buf.new.area ≡ buf.old.area }
{
    let BodyText { text, line_starts } = body;
    let at = usize::from(line);
    if at < line_starts.len() {
        draw_lines(alloc, &text[line_starts[at]..], 0, size, buf)
    } else {
        draw_lines(alloc, text, line, size, buf)
    }
}

fn bar() -> Scrollbar<'static>
    ensures { scrollbar_data result ≡ bar }
{
    Scrollbar::new(ScrollbarOrientation::VerticalRight)
        .begin_symbol(None)
        .end_symbol(None)
}

/// Draws the scrollbar of the body over its right border. `most` is the greatest line that the body may start with.
pub(crate) fn draw_bar(
    alloc: Global,
    most: u16,
    line: u16,
    size: PagerSize,
    buf: &mut Buffer,
) -> Mem<()>
    requires { buf.old.area ≡ page_area size.width size.height }
    ensures drawn { OnOk result (Painted (scrollbar_layers bar (bar_state (size.height - 3) most line) (bar_area size.width size.height)) buf.old buf.new) }
    ensures area { buf.new.area ≡ buf.old.area }
{
    let rows = size.height - 3;
    let area = Rect {
        x: size.width - 1,
        y: 1,
        width: 1,
        height: rows,
    };
    let mut state = ScrollbarState::new(usize::from(most) + 1)
        .position(usize::from(line))
        .viewport_content_length(usize::from(rows));
    bar().render(alloc, area, buf, &mut state)
}

/// Draws the last row: the position of the selected entry, from 1, and the number of entries.
pub(crate) fn draw_last_row(
    alloc: Global,
    selected: Option<usize>,
    count: usize,
    size: PagerSize,
    buf: &mut Buffer,
) -> Mem<()>
    requires place { SelectsEntry count selected }
    requires area { buf.old.area ≡ page_area size.width size.height }
    ensures drawn { OnOk result (Painted
        (paragraph_layers (paragraph_of (raw_text (last_row_text selected count))) (last_row size.width size.height)) buf.old buf.new) }
    ensures area { buf.new.area ≡ buf.old.area }
{
    let area = Rect {
        x: 0,
        y: size.height - 1,
        width: size.width,
        height: 1,
    };
    let number = entry_number(selected);
    let text = format!(in alloc; "{number}/{count}")?;
    let paragraph = Paragraph::new(Text::raw(alloc, text.as_str())?);
    paragraph.render(alloc, area, buf)
}

/// Returns the position of an entry, from 1, or 0 if none is selected.
fn entry_number(selected: Option<usize>) -> usize
    requires { IfSome selected (λ place. place + 1 < 2 ^ 64) }
    ensures { result ≡ entry_number selected }
{
    match selected {
        None => 0,
        Some(place) => place + 1,
    }
}

/// Returns the area of a screen of this size, at the origin.
pub(crate) fn page_of(size: PagerSize) -> Rect
    ensures { result ≡ page_area size.width size.height }
{
    Rect {
        x: 0,
        y: 0,
        width: size.width,
        height: size.height,
    }
}

/// Makes a screen blank, with this size and at the origin. If it has this size already, its cells are reset without
/// allocating; otherwise a new screen is allocated.
#[tactic(auto, using(crate::proofs::Placing::wiped))]
pub(crate) fn clear_page(alloc: Global, size: PagerSize, screen: &mut Buffer) -> Mem<()>
    ensures { OnOk result (IsFilled (page_area size.width size.height) blank screen.new) }
{
    let page = page_of(size);
    if screen.area() == page {
        screen.reset(page);
        return Ok(());
    }
    *screen = Buffer::empty(alloc, page)?;
    Ok(())
}
