//! Cells and buffers by the calls that no program makes.

use std::alloc::Global;
use test_help::shows;
use tui_cells::{Buffer, Cell, Mem, MergeStrategy, ParseError, Position, Rect};

/// A cell with a long symbol, which was another one's.
fn copied(alloc: Global) -> Mem<Cell> {
    let mut cell = Cell::new(alloc);
    cell.set_symbol("a symbol of more than 8 bytes")?;
    let mut copy = Cell::new(alloc);
    copy.copy_from(&cell)?;
    Ok(copy)
}

#[test]
fn cells_are_copied(rt: HostRuntime) -> Mem<()> {
    assert!(&rt; copied(rt.alloc())?.symbol() == "a symbol of more than 8 bytes");
    Ok(())
}

/// A cell with two symbols joined.
fn joined(alloc: Global) -> Mem<Cell> {
    let mut cell = Cell::new(alloc);
    cell.set_symbol("┐")?;
    cell.merge_symbol("┌", MergeStrategy::Exact)?;
    Ok(cell)
}

#[test]
fn symbols_are_joined(rt: HostRuntime) -> Mem<()> {
    let buffer = Buffer::filled(rt.alloc(), Rect::new(0, 0, 2, 1), &joined(rt.alloc())?)?;
    assert!(&rt; shows(rt.alloc(), &buffer, "┬┬\n")?);
    Ok(())
}

/// Changes the second of three columns, and nothing where there is no cell.
fn change(buffer: &mut Buffer) -> Mem<()> {
    buffer.set_symbol(Position::new(1, 0), "│")?;
    buffer.set_symbol(Position::new(3, 0), "a symbol of more than 8 bytes")?;
    buffer.merge_symbol(Position::new(1, 0), "─", MergeStrategy::Exact)
}

#[test]
fn cells_of_a_buffer_are_set(rt: HostRuntime) -> Mem<()> {
    let mut buffer = Buffer::from_rows(rt.alloc(), "abc")?;
    change(&mut buffer)?;
    assert!(&rt; shows(rt.alloc(), &buffer, "a┼c\n")?);
    Ok(())
}

/// Texts, the columns and rows of their buffers, and what these show.
const TEXTS: [(&str, u16, u16, &str); 4] = [
    ("ab\ncd", 2, 2, "ab\ncd\n"),
    ("", 0, 1, "\n"),
    ("ab\n", 2, 2, "ab\n  \n"),
    ("a\n\n\u{30b3}bc", 3, 3, "a  \n   \n\u{30b3}bc\n"),
];

fn is_buffer(alloc: Global, text: &str, (width, height): (u16, u16), rows: &str) -> Mem<bool> {
    let buffer = Buffer::from_rows(alloc, text)?;
    Ok(buffer.area() == Rect::new(0, 0, width, height) && shows(alloc, &buffer, rows)?)
}

#[test]
fn texts_are_buffers(rt: HostRuntime) -> Mem<()> {
    for &(text, width, height, rows) in &TEXTS {
        assert!(&rt; is_buffer(rt.alloc(), text, (width, height), rows)?);
    }
    Ok(())
}

#[test]
fn errors_have_texts(rt: HostRuntime) -> Mem<()> {
    let text = format!(in rt.alloc(); "{}", ParseError::VariantNotFound)?;
    assert!(&rt; text.as_str() == "VariantNotFound");
    Ok(())
}
