//! Where words are split.

ghost use Rattle.std.specs.Prelude.{◌≡◌, ◌&&◌};
ghost use Rattle.tui_text.specs.Grapheme.{glyph_blank, glyph_of};
ghost use Rattle.tui_para.specs.Hyphenation.{after_hyphen, after_letter, at_start, after};
ghost use Rattle.tui_para.specs.Hyphens.{is_hyphen, is_letter};
ghost use Rattle.tui_para.specs.Mark.{mark_of};

use crate::wrapping::mark::Mark;
use tui_text::StyledGrapheme;

/// Whether words are split after hyphens and, if they are, what comes directly before the next grapheme of a text line.
/// A word is split where the next grapheme shows that a `-` is between two graphemes that aren't `-`.
#[derive(Clone, Copy, Debug)]
pub(crate) enum Hyphenation {
    /// No word is split.
    Off,
    /// Neither of the two below.
    Neither,
    /// A grapheme of a word that isn't `-`.
    Letter,
    /// A `-` directly after such a grapheme.
    Hyphen,
}

impl Hyphenation {
    /// Creates the state at the beginning of a text line.
    pub(crate) fn new(hyphens: bool) -> Hyphenation
        ensures { result ≡ at_start hyphens }
    {
        if hyphens {
            Hyphenation::Neither
        } else {
            Hyphenation::Off
        }
    }

    /// Returns the mark of the next grapheme, and the state after it.
    #[inline(always)]
    pub(crate) fn mark(self, grapheme: &StyledGrapheme<'_>) -> (Mark, Hyphenation)
        ensures mark { result.0 ≡ mark_of (glyph_of grapheme.now, after_hyphen self && is_letter (glyph_of grapheme.now)) }
        ensures after { result.1 ≡ after self (glyph_of grapheme.now) }
    {
        let mark = Mark::unsplit(grapheme);
        let after = self.after(grapheme, mark);
        let mark = Mark {
            split: self.splits_before(after),
            ..mark
        };
        (mark, after)
    }

    /// Returns the state after a grapheme with this mark. If no word is split, nothing is read of the grapheme.
    #[inline(always)]
    pub(crate) fn after(self, grapheme: &StyledGrapheme<'_>, mark: Mark) -> Hyphenation
        requires { mark.blank ≡ glyph_blank (glyph_of grapheme.now) }
        ensures { result ≡ after self (glyph_of grapheme.now) }
    {
        match self {
            Hyphenation::Off => Hyphenation::Off,
            Hyphenation::Letter if is_hyphen(grapheme) => Hyphenation::Hyphen,
            _ if is_hyphen(grapheme) || mark.blank => Hyphenation::Neither,
            _ => Hyphenation::Letter,
        }
    }

    /// Whether a word is split before the grapheme that leads from this state to the given one.
    #[inline(always)]
    pub(crate) fn splits_before(self, after: Hyphenation) -> bool
        ensures { result ≡ (after_hyphen self && after_letter after) }
    {
        matches!(self, Hyphenation::Hyphen) && matches!(after, Hyphenation::Letter)
    }
}

#[inline(always)]
#[tactic(auto, unfolding(crate::specs::Hyphens::is_hyphen_text))]
fn is_hyphen(grapheme: &StyledGrapheme<'_>) -> bool
    ensures { result ≡ is_hyphen (glyph_of grapheme.now) }
{
    matches!(grapheme.symbol.as_bytes(), [b'-'])
}
