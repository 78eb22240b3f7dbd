//! Titles of a block.

ghost use Rattle.std.specs.Prelude.{◌≡◌, IfOk, true};
ghost use Rattle.tui_frames.specs.Block.{block_data, title_data};
ghost use Rattle.tui_frames.specs.Titles.{has_title, is_in, is_on, same_alignment, same_position, title_width};
ghost use Rattle.tui_text.specs.Line.{line_data};

use crate::block::Block;
use crate::title_position::TitlePosition;
use tui_cells::{FARTHEST_EDGE, Mem};
use tui_text::{Alignment, Line};

/// A line, and the side on which it is placed, if it has one of its own.
#[derive(Debug, PartialEq, Eq, Hash, Drop)]
pub struct Title<'a> {
    /// The text of the title. Its alignment is that of the title. Without one, the title has the block's.
    pub line: Line<'a>,
    /// The side. Without one, the title is on the side that the block names.
    pub position: Option<TitlePosition>,
}

/// Where titles are placed: a side, and their alignment there.
#[derive(Clone, Copy)]
pub(crate) struct TitlePlace {
    pub(crate) position: TitlePosition,
    pub(crate) alignment: Alignment,
}

impl<'a> Title<'a> {
    /// Returns an equal title of its own. Fails with `NoMemory` if its line can't be allocated.
    pub fn clone(&self) -> Mem<Title<'a>>
        ensures is { IfOk result (λ title. title_data title ≡ title_data self.now) }
        ensures equal { IfOk result (λ title. ⟦<Title<'a> as PartialEq>⟧.eq title self.now ≡ true) }
    {
        Ok(Title {
            line: self.line.clone()?,
            position: self.position,
        })
    }
}

fn same_position(a: TitlePosition, b: TitlePosition) -> bool
    ensures { result ≡ same_position a b }
{
    match (a, b) {
        (TitlePosition::Top, TitlePosition::Top) => true,
        (TitlePosition::Bottom, TitlePosition::Bottom) => true,
        _ => false,
    }
}

fn same_alignment(a: Alignment, b: Alignment) -> bool
    ensures { result ≡ same_alignment a b }
{
    match (a, b) {
        (Alignment::Left, Alignment::Left) => true,
        (Alignment::Center, Alignment::Center) => true,
        (Alignment::Right, Alignment::Right) => true,
        _ => false,
    }
}

/// The columns of a title, at most 65535.
pub(crate) fn title_width(line: &Line<'_>) -> u16
    ensures { result ≡ title_width (line_data line.now) }
{
    line.width().min(FARTHEST_EDGE as usize) as u16
}

impl<'a> Block<'a> {
    fn is_on(&self, position: TitlePosition, title: &Title<'_>) -> bool
        ensures { result ≡ is_on (block_data self.now) position (title_data title.now) }
    {
        same_position(title.position.unwrap_or(self.title_position), position)
    }

    /// Whether a title belongs in a place. What the title does not specify is taken from the block.
    pub(crate) fn is_in(&self, place: TitlePlace, title: &Title<'_>) -> bool
        ensures { result ≡ is_in (block_data self.now) place (title_data title.now) }
    {
        let alignment = title.line.line_alignment().unwrap_or(self.title_alignment);
        self.is_on(place.position, title) && same_alignment(alignment, place.alignment)
    }

    /// Whether there is a title on a side.
    pub(crate) fn has_title(&self, position: TitlePosition) -> bool
        ensures { result ≡ has_title (block_data self.now) position }
    {
        for title in &self.titles {
            if self.is_on(position, title) {
                return true;
            }
        }
        false
    }
}
