//! What shows in the columns of a row.

ghost use Rattle.std.specs.Prelude.{◌≡◌, ◌-◌, ◌<◌, ◌≤◌, ◌==◌, Some};
ghost use Rattle.tui_terminal.specs.Seeing.{blank_of, cover_of, shown_in};
ghost use Rattle.tui_text.specs.Visible.{step_of};
ghost use Rattle.tui_terminal_model.specs.Pieces.{covered, next_cover, seen, shown, uncovered};
ghost use Rattle.tui_terminal_model.specs.Symbols.{has_known_width};

use crate::symbols::{is_ascii, is_sendable, known_of};
use tui_cells::{Attributes, Cell};
use tui_terminal_model::KnownWidths;

/// What covers the next cells of a row: how many of them lie under a symbol, and the attributes with which
/// they show as blanks, if they show.
#[derive(Clone, Copy)]
pub(crate) struct Under {
    left: usize,
    blank: Option<Attributes>,
}

/// What shows in the column of a cell, if anything begins there, and what covers the cells after it.
#[derive(Clone, Copy)]
pub(crate) struct Seen<'c> {
    /// Whether a symbol begins in this column.
    pub shows: bool,
    /// The symbol, or a space if none begins there.
    pub symbol: &'c str,
    /// Its attributes.
    pub attributes: Attributes,
    /// How many columns it takes.
    pub columns: usize,
    /// Whether it has a known width.
    pub known_width: bool,
    /// What covers the next cells.
    pub under: Under,
}

impl Under {
    /// Nothing covers the next cells.
    pub(crate) fn none() -> Under
        ensures { cover_of result ≡ uncovered }
    {
        Under {
            left: 0,
            blank: None,
        }
    }
}

/// Returns what shows in the column of a cell. `room` is the number of columns left in the row.
#[inline(always)]
pub(crate) fn see<'c>(widths: KnownWidths, under: Under, room: usize, cell: &'c Cell) -> Seen<'c>
    requires { (0 < room) × (room < 65536) }
    ensures shown { shown_in result ≡ shown widths (cover_of under) room cell.now }
    ensures next { cover_of result.under ≡ next_cover widths (cover_of under) room cell.now }
    ensures fits { result.columns ≤ room }
    ensures columns { result.columns ≡ step_of result.symbol.now }
    ensures known_width { result.known_width ≡ has_known_width widths result.symbol.now }
{
    if is_open(under) {
        see_open(widths, room, cell)
    } else {
        see_under(widths, under)
    }
}

#[inline(always)]
fn is_open(under: Under) -> bool
    ensures { result ≡ (under.left == 0) }
{
    under.left == 0
}

// A symbol that may not be sent shows as blanks in its columns.
#[inline(always)]
fn see_open<'c>(widths: KnownWidths, room: usize, cell: &'c Cell) -> Seen<'c>
    requires { (0 < room) × (room < 65536) }
    ensures shown { shown_in result ≡ Some (seen widths room cell.now) }
    ensures next { cover_of result.under ≡ covered widths room cell.now }
    ensures fits { result.columns ≤ room }
    ensures columns { result.columns ≡ step_of result.symbol.now }
    ensures known_width { result.known_width ≡ has_known_width widths result.symbol.now }
{
    let symbol = cell.symbol();
    let attributes = cell.attributes();
    // A printable byte takes one column, and may be sent wherever a column is left.
    if is_ascii(symbol) {
        return Seen {
            shows: true,
            symbol,
            attributes,
            columns: 1,
            known_width: true,
            under: Under::none(),
        };
    }
    let known = known_of(widths, symbol);
    let left = known.columns.min(room) - 1;
    if is_sendable(symbol, room, known.columns, known.known_width) {
        Seen {
            shows: true,
            symbol,
            attributes,
            columns: known.columns,
            known_width: known.known_width,
            under: Under { left, blank: None },
        }
    } else {
        Seen {
            shows: true,
            symbol: " ",
            attributes,
            columns: 1,
            known_width: true,
            under: Under {
                left,
                blank: Some(attributes),
            },
        }
    }
}

#[inline(always)]
fn see_under<'c>(widths: KnownWidths, under: Under) -> Seen<'c>
    requires { 0 < under.left }
    ensures shown { shown_in result ≡ blank_of under.blank }
    ensures next { cover_of result.under ≡ record { left = under.left - 1; blank = blank_of under.blank } }
    ensures fits { result.columns ≤ 1 }
    ensures columns { result.columns ≡ step_of result.symbol.now }
    ensures known_width { result.known_width ≡ has_known_width widths result.symbol.now }
{
    let under_next = Under {
        left: under.left - 1,
        blank: under.blank,
    };
    match under.blank {
        Some(attributes) => Seen {
            shows: true,
            symbol: " ",
            attributes,
            columns: 1,
            known_width: true,
            under: under_next,
        },
        None => Seen {
            shows: false,
            symbol: " ",
            attributes: Attributes::unstyled(),
            columns: 1,
            known_width: true,
            under: under_next,
        },
    }
}
