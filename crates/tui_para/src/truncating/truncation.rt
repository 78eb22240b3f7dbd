//! What is shown of a truncated text line, while it is read.

ghost use Rattle.std.specs.Prelude.{◌≡◌, ◌+◌, ◌++◌, ◌∷◌, [], List, if◌then◌else◌};
ghost use Rattle.tui_text.specs.Grapheme.{Glyph, glyph_of, glyph_width};
ghost use Rattle.tui_para.specs.Truncation.{shown_of};
ghost use Rattle.tui_para.specs.Lines.{is_left};
ghost use Rattle.tui_para.specs.Truncated.{truncate};

use tui_text::{Alignment, StyledGrapheme, cell_width};

/// The state of truncating a text line.
#[derive(Clone, Copy, Debug)]
pub(crate) struct Truncation {
    /// The width of a whole line, in columns.
    pub width: u16,
    /// The columns that are still to be skipped at the left.
    pub offset: u16,
    /// The columns that are free for what is shown.
    pub room: u16,
    /// Whether a grapheme didn't fit, so that no further one is shown.
    pub full: bool,
}

impl Truncation {
    /// Creates the state before anything is read. The offset applies only to lines that are aligned to the left.
    pub(crate) fn new(width: u16, alignment: Alignment, offset: u16) -> Truncation
        ensures { (glyphs : List Glyph) → shown_of result glyphs ≡ truncate glyph_width width (is_left alignment) offset glyphs }
    {
        let offset = match alignment {
            Alignment::Left => offset,
            Alignment::Center | Alignment::Right => 0,
        };
        Truncation {
            width,
            offset,
            room: width,
            full: false,
        }
    }

    /// Reads the next grapheme, and returns whether it is shown.
    pub(crate) fn shows(&mut self, grapheme: &StyledGrapheme<'_>) -> bool
        ensures line { (rest : List Glyph) → shown_of self.old (glyph_of grapheme.now ∷ rest)
            ≡ (if result then glyph_of grapheme.now ∷ [] else []) ++ shown_of self.new rest }
        ensures room { self.new.room + (if result then glyph_width (glyph_of grapheme.now) else 0) ≡ self.old.room }
    {
        if self.full {
            return false;
        }
        let columns = cell_width(grapheme.symbol);
        if columns > self.width {
            return false;
        }
        if self.offset > 0 && columns <= self.offset {
            self.offset -= columns;
            return false;
        }
        self.offset = 0;
        self.full = columns > self.room;
        if self.full {
            return false;
        }
        self.room -= columns;
        true
    }
}
