//! Laws of the definitions.

ghost use Rattle.std.specs.Prelude.{◌≡◌, ◌<◌, ℕ, Bool, List, length};
ghost use Rattle.tui_text.specs.Grapheme.{Glyph, glyph_blank, glyph_width};
ghost use Rattle.tui_text.specs.Text.{TextData};
ghost use Rattle.tui_text.specs.declared.alignment.Alignment.{Alignment};
ghost use Rattle.tui_para.specs.Lines.{GlyphLine};
ghost use Rattle.tui_para.specs.LinesLeft.{GoesOnAfter};
ghost use Rattle.tui_para.specs.Hyphens.{Wrapped, wrap};
ghost use Rattle.tui_para.specs.TextLines.{gives_graphemes, gives_lines};
ghost use Rattle.tui_para.specs.Truncated.{Truncated, truncate};
ghost use Rattle.tui_para.specs.Wrapped.{IsUnique, LeavesOutBlanks, not_wider};
ghost use Rattle.tui_para.specs.WrappedText.{TruncatedText, WrappedText, truncate_text, wrap_text};
ghost use Rattle.tui_para.specs.Wrapping.{TruncatorCanYield, TruncatorMayYield, TruncatorWillYield, WrapperCanYield, WrapperMayYield, WrapperWillYield};
ghost use Rattle.tui_para.specs.declared.wrap.Wrap.{Wrap};

use crate::text_lines::TextLines;
use crate::truncator::LineTruncator;
use crate::wrapper::WordWrapper;
use tui_text::{Alignment, Graphemes, StyledGrapheme};

/// Exactly one list of lines wraps a list of graphemes, at every width of at least 1, with and without `trim`
/// and breaks after hyphens.
pub fn wraps_exactly_once()
    ensures { (w : ℕ) (way : Wrap) (graphemes : List Glyph) → 0 < w
        → IsUnique (Wrapped w way graphemes) (wrap w way graphemes) }
{}

/// Wrapping drops only graphemes that are wider than the width, and whitespace before and after the lines. All other
/// graphemes are in the lines, each once and in order.
pub fn wrapping_leaves_out_blanks()
    ensures { (w : ℕ) (way : Wrap) (graphemes : List Glyph) (lines : List (List Glyph)) → Wrapped w way graphemes lines
        → LeavesOutBlanks glyph_blank (not_wider glyph_width w graphemes) lines }
{}

/// From some line on, the lines of a wrapping are those of the graphemes that are left there, with the words split as
/// in the whole. Without breaks after hyphens they are the wrapping of these graphemes alone. So the wrapping of a text
/// line can start at the beginning of any of its lines.
pub fn wrapping_goes_on()
    ensures { (w : ℕ) (way : Wrap) (graphemes : List Glyph) (lines : List (List Glyph)) (k : ℕ) → Wrapped w way graphemes lines → k < length lines
        → GoesOnAfter w way graphemes lines k }
{}

/// A list of graphemes that isn't wrapped shows exactly one line at a width, whatever the offset.
pub fn truncates_exactly_once()
    ensures { (w offset : ℕ) (left : Bool) (graphemes : List Glyph)
        → IsUnique (Truncated glyph_width w left offset graphemes) (truncate glyph_width w left offset graphemes) }
{}

/// Exactly one list of lines wraps a text, at every width of at least 1, with and without `trim`
/// and breaks after hyphens.
pub fn text_wraps_exactly_once()
    ensures { (w : ℕ) (way : Wrap) (alignment : Alignment) (text : TextData) → 0 < w
        → IsUnique (WrappedText w way alignment text) (wrap_text w way alignment text) }
{}

/// A text that isn't wrapped has exactly one list of lines, at every width.
pub fn text_truncates_exactly_once()
    ensures { (w offset : ℕ) (alignment : Alignment) (text : TextData)
        → IsUnique (TruncatedText w offset alignment text) (truncate_text w offset alignment text) }
{}

/// Over iterators that end, a wrapper may yield some list of lines. If the iterators give known text lines, it may
/// yield only the list that it is certain to yield. The iterators are read to their ends to see that they end, so this
/// consumes the wrapper.
pub fn wrapper_yields_some<'a, O, I>(wrapper: WordWrapper<'a, O, I>)
where
    O: Iterator<Item = (I, Alignment)>,
    I: Iterator<Item = StyledGrapheme<'a>>,
    requires { WrapperCanYield O.Iterator I.Iterator wrapper }
    ensures some { (lines : List GlyphLine) × WrapperMayYield O.next_gives I.next_gives wrapper.entry lines }
    ensures known { (known : List GlyphLine) → WrapperWillYield O.next_gives I.next_gives wrapper.entry known
        → IsUnique (WrapperMayYield O.next_gives I.next_gives wrapper.entry) known }
{
    wrapper.read_to_end();
}

/// Over the lines of a text, a wrapper may yield exactly one list of lines, the one that it is certain to yield. This
/// holds whatever it has yielded before.
pub fn text_wrapper_yields_one<'s, 'a>(
    wrapper: WordWrapper<'a, TextLines<'s, 'a>, Graphemes<'s, 'a>>,
)
    ensures { (lines : List GlyphLine) × WrapperWillYield gives_lines gives_graphemes wrapper.entry lines
        × IsUnique (WrapperMayYield gives_lines gives_graphemes wrapper.entry) lines }
{
    wrapper_yields_some(wrapper);
}

/// If its iterators give known text lines, a wrapper may yield only the lines that it is certain to yield.
pub fn wrapper_yields_what_is_known<'a, O, I>(wrapper: &WordWrapper<'a, O, I>)
where
    O: Iterator<Item = (I, Alignment)>,
    I: Iterator<Item = StyledGrapheme<'a>>,
    ensures { (lines known : List GlyphLine) → WrapperMayYield O.next_gives I.next_gives wrapper.now lines
        → WrapperWillYield O.next_gives I.next_gives wrapper.now known → lines ≡ known }
{}

/// Over iterators that end, a truncator may yield some list of lines. If the iterators give known text lines, it may
/// yield only the list that it is certain to yield. The iterators are read to their ends to see that they end.
pub fn truncator_yields_some<'a, O, I>(truncator: LineTruncator<'a, O, I>)
where
    O: Iterator<Item = (I, Alignment)>,
    I: Iterator<Item = StyledGrapheme<'a>>,
    requires { TruncatorCanYield O.Iterator I.Iterator truncator }
    ensures some { (lines : List GlyphLine) × TruncatorMayYield O.next_gives I.next_gives truncator.entry lines }
    ensures known { (known : List GlyphLine) → TruncatorWillYield O.next_gives I.next_gives truncator.entry known
        → IsUnique (TruncatorMayYield O.next_gives I.next_gives truncator.entry) known }
{
    truncator.read_to_end();
}

/// Over the lines of a text, a truncator may yield exactly one list of lines, the one that it is certain to yield. This
/// holds whatever it has yielded before.
pub fn text_truncator_yields_one<'s, 'a>(
    truncator: LineTruncator<'a, TextLines<'s, 'a>, Graphemes<'s, 'a>>,
)
    ensures { (lines : List GlyphLine) × TruncatorWillYield gives_lines gives_graphemes truncator.entry lines
        × IsUnique (TruncatorMayYield gives_lines gives_graphemes truncator.entry) lines }
{
    truncator_yields_some(truncator);
}

/// If its iterators give known text lines, a truncator may yield only the lines that it is certain to yield.
pub fn truncator_yields_what_is_known<'a, O, I>(truncator: &LineTruncator<'a, O, I>)
where
    O: Iterator<Item = (I, Alignment)>,
    I: Iterator<Item = StyledGrapheme<'a>>,
    ensures { (lines known : List GlyphLine) → TruncatorMayYield O.next_gives I.next_gives truncator.now lines
        → TruncatorWillYield O.next_gives I.next_gives truncator.now known → lines ≡ known }
{}
