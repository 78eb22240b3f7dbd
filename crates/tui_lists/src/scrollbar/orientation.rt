//! The sides at which a scrollbar is drawn.

ghost use Rattle.std.specs.Prelude.{◌≡◌, not};
ghost use Rattle.tui_cells.specs.Symbols.{scrollbar_data};
ghost use Rattle.tui_lists.specs.Orientation.{along, double_symbols, is_vertical, length_along, moved_by};

use std::fmt;
use std::str::FromStr;
use tui_cells::{FARTHEST_EDGE, ParseError, Position, Rect, scrollbar};

/// The side of its area at which a scrollbar is drawn. `Display` writes the variant's name, and `FromStr` reads it.
#[derive(Clone, Copy, Debug, PartialEq, Eq, Hash)]
pub enum ScrollbarOrientation {
    /// In the last column.
    VerticalRight,
    /// In the first column.
    VerticalLeft,
    /// In the last row.
    HorizontalBottom,
    /// In the first row.
    HorizontalTop,
}

impl ScrollbarOrientation {
    /// Whether the bar is a column.
    pub fn is_vertical(&self) -> bool
        ensures { result ≡ is_vertical self.now }
    {
        match self {
            ScrollbarOrientation::VerticalRight | ScrollbarOrientation::VerticalLeft => true,
            ScrollbarOrientation::HorizontalBottom | ScrollbarOrientation::HorizontalTop => false,
        }
    }

    /// Whether the bar is a row.
    pub fn is_horizontal(&self) -> bool
        ensures { result ≡ not (is_vertical self.now) }
    {
        !self.is_vertical()
    }

    /// Returns the symbols of double lines and arrows.
    pub(crate) fn double_set<'a>(self) -> scrollbar::Set<'a>
        ensures { scrollbar_data result ≡ double_symbols self }
    {
        if self.is_vertical() {
            scrollbar::DOUBLE_VERTICAL
        } else {
            scrollbar::DOUBLE_HORIZONTAL
        }
    }

    /// Returns the position of cell `place` of the bar, counted from 0.
    pub(crate) fn along(self, clip: Rect, place: usize) -> Position
        ensures { result ≡ along self clip place }
    {
        let last_column = moved_by(clip.x, clip.width.saturating_sub(1) as usize);
        let last_row = moved_by(clip.y, clip.height.saturating_sub(1) as usize);
        match self {
            ScrollbarOrientation::VerticalRight => Position {
                x: last_column,
                y: moved_by(clip.y, place),
            },
            ScrollbarOrientation::VerticalLeft => Position {
                x: clip.x,
                y: moved_by(clip.y, place),
            },
            ScrollbarOrientation::HorizontalBottom => Position {
                x: moved_by(clip.x, place),
                y: last_row,
            },
            ScrollbarOrientation::HorizontalTop => Position {
                x: moved_by(clip.x, place),
                y: clip.y,
            },
        }
    }

    /// Returns the length of the bar, in cells.
    pub(crate) fn length(self, clip: Rect) -> u16
        ensures { result ≡ length_along self clip }
    {
        if self.is_vertical() {
            clip.height
        } else {
            clip.width
        }
    }
}

/// Adds to a coordinate, at most up to 65535, where no clip has a cell.
fn moved_by(place: u16, by: usize) -> u16
    ensures { result ≡ moved_by place by }
{
    (place as usize)
        .saturating_add(by)
        .min(FARTHEST_EDGE as usize) as u16
}

impl Default for ScrollbarOrientation {
    /// `VerticalRight`.
    fn default() -> ScrollbarOrientation
        ensures { result ≡ ScrollbarOrientation.VerticalRight }
    {
        ScrollbarOrientation::VerticalRight
    }
}

impl fmt::Display for ScrollbarOrientation {
    ghost use Rattle.std.specs.Prelude.{Some};
    ghost use Rattle.tui_lists.specs.Orientation.{name_of};

    ghost output = { λ orientation. Some (name_of orientation) };

    fn fmt<W: fmt::Write>(&self, f: &mut fmt::Formatter<W>) -> fmt::Result {
        f.write_str(match self {
            ScrollbarOrientation::VerticalRight => "VerticalRight",
            ScrollbarOrientation::VerticalLeft => "VerticalLeft",
            ScrollbarOrientation::HorizontalBottom => "HorizontalBottom",
            ScrollbarOrientation::HorizontalTop => "HorizontalTop",
        })
    }
}

impl FromStr for ScrollbarOrientation {
    ghost use Rattle.tui_cells.specs.Names.{IsParsed};
    ghost use Rattle.tui_lists.specs.Orientation.{name_of};

    type Err = ParseError;

    ghost from_str_gives = { IsParsed name_of };

    /// Fails with `VariantNotFound` exactly if the text is no variant's name.
    fn from_str(text: &str) -> Result<ScrollbarOrientation, ParseError> {
        match text {
            "VerticalRight" => Ok(ScrollbarOrientation::VerticalRight),
            "VerticalLeft" => Ok(ScrollbarOrientation::VerticalLeft),
            "HorizontalBottom" => Ok(ScrollbarOrientation::HorizontalBottom),
            "HorizontalTop" => Ok(ScrollbarOrientation::HorizontalTop),
            _ => Err(ParseError::VariantNotFound),
        }
    }
}
