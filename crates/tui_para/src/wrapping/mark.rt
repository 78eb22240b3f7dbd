//! What wrapping needs to know of a grapheme.

ghost use Rattle.std.specs.Prelude.{◌≡◌, IfSome, false};
ghost use Rattle.tui_text.specs.Grapheme.{glyph_of};
ghost use Rattle.tui_para.specs.Mark.{ends_before, mark_of};

use tui_text::{StyledGrapheme, cell_width, printable_byte};

/// What wrapping needs to know of a grapheme.
#[derive(Clone, Copy, Debug, PartialEq, Eq)]
pub struct Mark {
    /// Its width, in columns.
    pub width: u16,
    /// Whether it is whitespace.
    pub blank: bool,
    /// Whether its word is split directly before it.
    pub split: bool,
}

impl Mark {
    /// Returns the mark of a grapheme before which no word is split.
    #[inline(always)]
    #[tactic(auto, unfolding(tui_text::specs::Grapheme::is_blank))]
    pub(crate) fn unsplit(grapheme: &StyledGrapheme<'_>) -> Mark
        ensures { result ≡ mark_of (glyph_of grapheme.now, false) }
    {
        Mark {
            width: cell_width(grapheme.symbol),
            blank: grapheme.is_whitespace(),
            split: false,
        }
    }

    /// Returns the same mark, if the grapheme is one printable byte.
    #[inline(always)]
    pub(crate) fn of_printable(grapheme: &StyledGrapheme<'_>) -> Option<Mark>
        ensures { IfSome result (λ mark. mark ≡ mark_of (glyph_of grapheme.now, false)) }
    {
        let byte = printable_byte(grapheme.symbol)?;
        Some(Mark {
            width: 1,
            blank: byte == b' ',
            split: false,
        })
    }

    /// Whether it ends a piece of a word that comes directly before it.
    #[inline(always)]
    pub(crate) fn ends_piece(self) -> bool
        ensures { result ≡ ends_before self }
    {
        self.split || self.blank
    }
}
