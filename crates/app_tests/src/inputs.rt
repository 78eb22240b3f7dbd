//! Text inputs that are drawn, and where the cursor is.

use crate::typing::send;
use std::alloc::Global;
use test_help::shows;
use tui_cells::{Buffer, Mem, Position, Rect, StatefulWidget};
use tui_frames::Block;
use tui_input::{Input, InputState};
use tui_text::Span;

/// Bytes, then a drawing, more bytes, and what another drawing in four columns shows then, with the column of the cursor.
const ROWS: [(&str, &str, &str, u16); 7] = [
    ("ab", "", "ab  \n", 2),
    // The end of a long text, and a column for the cursor.
    ("abcdefgh", "", "fgh \n", 3),
    // Left moves the cursor alone; after Backspace the text fills the columns again.
    ("abcdefgh", "\x1b[D", "fgh \n", 2),
    ("abcdefgh", "\x7f", "efg \n", 3),
    ("abcdefgh", "\x1b[H", "abcd\n", 0),
    // A wide grapheme is shown whole, or not.
    ("日本語", "", "語   \n", 2),
    ("", "", "name\n", 0),
];

const AREA: Rect = Rect {
    x: 0,
    y: 0,
    width: 4,
    height: 1,
};

fn drawn(alloc: Global, input: &Input<'_>, state: &mut InputState) -> Mem<Buffer> {
    let mut buffer = Buffer::empty(alloc, AREA)?;
    input.render(alloc, AREA, &mut buffer, state)?;
    Ok(buffer)
}

/// Whether the second drawing shows this row, and the cursor in this column.
fn is_drawn(alloc: Global, bytes: &str, more: &str, row: &str, column: u16) -> Mem<bool> {
    let input = Input::new().placeholder(Span::raw("name"));
    let mut state = InputState::new(alloc, 10);
    send(&mut state, bytes)?;
    drop(drawn(alloc, &input, &mut state)?);
    send(&mut state, more)?;
    let buffer = drawn(alloc, &input, &mut state)?;
    let has_cursor = input.cursor(AREA, &state) == Some(Position::new(column, 0));
    Ok(has_cursor && shows(alloc, &buffer, row)?)
}

#[test]
fn the_cursor_is_visible(rt: HostRuntime) -> Mem<()> {
    for &(bytes, more, row, column) in &ROWS {
        assert!(&rt; is_drawn(rt.alloc(), bytes, more, row, column)?);
    }
    Ok(())
}

#[test]
fn inputs_are_copied(rt: HostRuntime) -> Mem<()> {
    let input = Input::new().block(Block::bordered(rt.alloc()));
    drop(input.clone()?);
    Ok(())
}
