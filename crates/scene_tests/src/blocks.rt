//! Blocks by the calls that no program makes.

use std::alloc::Global;
use test_help::shows;
use tui_cells::{Buffer, Mem, Rect};
use tui_frames::{Block, Borders, Dimmed, TitlePosition, border};
use tui_text::Line;

/// A block with a title above and one below, whatever the place of other titles.
fn titled<'a>(alloc: Global) -> Mem<Block<'a>> {
    let mut block = Block::new(alloc).title_position(TitlePosition::Bottom);
    block.title_top(Line::raw(alloc, "a")?)?;
    block.title_bottom(Line::raw(alloc, "b")?)?;
    Ok(block)
}

/// What a block of two columns and two rows draws with an effect.
fn drawn(alloc: Global, block: &Block<'_>) -> Mem<Buffer> {
    let area = Rect::new(0, 0, 2, 2);
    let mut buffer = Buffer::empty(alloc, area)?;
    block.render_with_effect(alloc, area, &mut buffer, &Dimmed::new())?;
    Ok(buffer)
}

#[test]
fn a_copy_has_the_titles_at_their_places(rt: HostRuntime) -> Mem<()> {
    let copy = titled(rt.alloc())?.clone()?;
    let buffer = drawn(rt.alloc(), &copy)?;
    assert!(&rt; shows(rt.alloc(), &buffer, "a \nb \n")?);
    Ok(())
}

#[test]
fn borders_are_given_by_name(rt: HostRuntime) {
    assert!(&rt; border!(TOP, LEFT) == (Borders::TOP | Borders::LEFT));
    assert!(&rt; border!() == Borders::NONE);
}
