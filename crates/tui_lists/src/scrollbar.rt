//! Scrollbars.

ghost use Rattle.std.specs.Prelude.{◌≡◌, Some, option_map};
ghost use Rattle.std.specs.Option.{option_copied};
ghost use Rattle.tui_cells.specs.Symbols.{scrollbar_data as symbol_data};
ghost use Rattle.tui_lists.specs.Orientation.{double_symbols};
ghost use Rattle.tui_lists.specs.Scrollbar.{scrollbar_data, scrollbar_of, with_symbols};

pub mod direction;
pub mod orientation;
pub mod parts;
mod rendering;
pub mod state;

use crate::scrollbar::orientation::ScrollbarOrientation;
use tui_cells::{Style, scrollbar};

/// A bar at one side of its area. A thumb on a track shows which part of the content is visible, and there is a symbol
/// at each end. The track and the symbols at the ends may be left out.
#[derive(Clone, Copy, Debug, PartialEq, Eq, Hash)]
pub struct Scrollbar<'a> {
    orientation: ScrollbarOrientation,
    thumb_symbol: &'a str,
    thumb_style: Style,
    track_symbol: Option<&'a str>,
    track_style: Style,
    begin_symbol: Option<&'a str>,
    begin_style: Style,
    end_symbol: Option<&'a str>,
    end_style: Style,
}

impl<'a> Default for Scrollbar<'a> {
    /// A bar in the last column.
    fn default() -> Scrollbar<'a>
        ensures { scrollbar_data result ≡ scrollbar_of ScrollbarOrientation.VerticalRight }
    {
        Scrollbar::new(ScrollbarOrientation::VerticalRight)
    }
}

impl<'a> Scrollbar<'a> {
    /// Creates a bar at this side, with the symbols of double lines and arrows, and without styles.
    pub fn new(orientation: ScrollbarOrientation) -> Scrollbar<'a>
        ensures { scrollbar_data result ≡ scrollbar_of orientation }
    {
        let set = orientation.double_set();
        Scrollbar {
            orientation,
            thumb_symbol: set.thumb,
            thumb_style: Style::new(),
            track_symbol: Some(set.track),
            track_style: Style::new(),
            begin_symbol: Some(set.begin),
            begin_style: Style::new(),
            end_symbol: Some(set.end),
            end_style: Style::new(),
        }
    }

    /// Sets the side, and then sets the symbols of double lines and arrows as `symbols` does.
    pub fn orientation(self, orientation: ScrollbarOrientation) -> Scrollbar<'a>
        ensures { scrollbar_data result
            ≡ with_symbols (record (scrollbar_data self.entry) { orientation = orientation }) (double_symbols orientation) }
    {
        self.orientation_and_symbol(orientation, orientation.double_set())
    }

    /// Sets the side, and then sets the symbols as `symbols` does.
    pub fn orientation_and_symbol(
        self,
        orientation: ScrollbarOrientation,
        set: scrollbar::Set<'a>,
    ) -> Scrollbar<'a>
        ensures { scrollbar_data result
            ≡ with_symbols (record (scrollbar_data self.entry) { orientation = orientation }) (symbol_data set.entry) }
    {
        let oriented = Scrollbar {
            orientation,
            ..self
        };
        oriented.symbols(set)
    }

    /// Sets the symbols of the thumb, the track and the ends. A track or an end without a symbol stays without one.
    pub fn symbols(self, set: scrollbar::Set<'a>) -> Scrollbar<'a>
        ensures { scrollbar_data result ≡ with_symbols (scrollbar_data self.entry) (symbol_data set.entry) }
    {
        Scrollbar {
            thumb_symbol: set.thumb,
            track_symbol: replaced(self.track_symbol, set.track),
            begin_symbol: replaced(self.begin_symbol, set.begin),
            end_symbol: replaced(self.end_symbol, set.end),
            ..self
        }
    }

    /// Sets the symbol of the thumb.
    pub fn thumb_symbol(self, symbol: &'a str) -> Scrollbar<'a>
        ensures { scrollbar_data result ≡ record (scrollbar_data self.entry) { thumb = symbol.now } }
    {
        Scrollbar {
            thumb_symbol: symbol,
            ..self
        }
    }

    /// Sets the style of the thumb.
    pub fn thumb_style(self, style: Style) -> Scrollbar<'a>
        ensures { scrollbar_data result ≡ record (scrollbar_data self.entry) { thumb_style = style } }
    {
        Scrollbar {
            thumb_style: style,
            ..self
        }
    }

    /// Sets the symbol of the track. Without one the cells of the track stay as they are.
    pub fn track_symbol(self, symbol: Option<&'a str>) -> Scrollbar<'a>
        ensures { scrollbar_data result ≡ record (scrollbar_data self.entry) { track = option_copied symbol.entry } }
    {
        Scrollbar {
            track_symbol: symbol,
            ..self
        }
    }

    /// Sets the style of the track.
    pub fn track_style(self, style: Style) -> Scrollbar<'a>
        ensures { scrollbar_data result ≡ record (scrollbar_data self.entry) { track_style = style } }
    {
        Scrollbar {
            track_style: style,
            ..self
        }
    }

    /// Sets the symbol at the beginning. Without one the track begins there.
    pub fn begin_symbol(self, symbol: Option<&'a str>) -> Scrollbar<'a>
        ensures { scrollbar_data result ≡ record (scrollbar_data self.entry) { begin = option_copied symbol.entry } }
    {
        Scrollbar {
            begin_symbol: symbol,
            ..self
        }
    }

    /// Sets the style of the symbol at the beginning.
    pub fn begin_style(self, style: Style) -> Scrollbar<'a>
        ensures { scrollbar_data result ≡ record (scrollbar_data self.entry) { begin_style = style } }
    {
        Scrollbar {
            begin_style: style,
            ..self
        }
    }

    /// Sets the symbol at the end. Without one the track ends there.
    pub fn end_symbol(self, symbol: Option<&'a str>) -> Scrollbar<'a>
        ensures { scrollbar_data result ≡ record (scrollbar_data self.entry) { end = option_copied symbol.entry } }
    {
        Scrollbar {
            end_symbol: symbol,
            ..self
        }
    }

    /// Sets the style of the symbol at the end.
    pub fn end_style(self, style: Style) -> Scrollbar<'a>
        ensures { scrollbar_data result ≡ record (scrollbar_data self.entry) { end_style = style } }
    {
        Scrollbar {
            end_style: style,
            ..self
        }
    }

    /// Sets the styles of the thumb, of the track and of the symbols at the ends.
    pub fn style(self, style: Style) -> Scrollbar<'a>
        ensures { scrollbar_data result ≡ record (scrollbar_data self.entry) {
          thumb_style = style;
          track_style = style;
          begin_style = style;
          end_style = style;
        } }
    {
        Scrollbar {
            thumb_style: style,
            track_style: style,
            begin_style: style,
            end_style: style,
            ..self
        }
    }
}

/// Returns the new symbol if there was one before.
fn replaced<'a>(old: Option<&'a str>, new: &'a str) -> Option<&'a str>
    ensures { option_copied result ≡ option_map (λ _. new.now) (option_copied old.entry) }
{
    match old {
        None => None,
        Some(_) => Some(new),
    }
}
