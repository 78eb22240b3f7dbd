//! Counts the lines of wrapped texts.

ghost use Rattle.std.specs.Prelude.{◌≡◌, List, length};
ghost use Rattle.tui_para.specs.Counting.{wrapped_len, wrapped_text_len};
ghost use Rattle.tui_para.specs.Lines.{GlyphLine};
ghost use Rattle.tui_para.specs.WrappedText.{WrappedText};
ghost use Rattle.tui_text.specs.Line.{line_data};
ghost use Rattle.tui_text.specs.declared.alignment.Alignment.{Alignment};
ghost use Rattle.tui_text.specs.Text.{text_data};
ghost use Rattle.tui_clusters.specs.Width.{saturated};

pub mod counter;
pub mod line_end;

use crate::counting::counter::Counter;
use crate::wrap::Wrap;
use crate::wrapping::hyphenation::Hyphenation;
use tui_cells::Style;
use tui_text::{Line, Text};

/// Returns how many lines a text line is wrapped into. Saturates at the greatest 64-bit number.
fn line_count(line: &Line<'_>, base: Style, width: u16, wrap: Wrap) -> usize
    ensures { result ≡ saturated (wrapped_len width wrap base (line_data line.now)) }
{
    let mut counter = Counter::new();
    let mut hyphenation = Hyphenation::new(wrap.hyphens);
    for grapheme in line.styled_graphemes(base) {
        let (mark, after) = hyphenation.mark(&grapheme);
        if mark.width <= width {
            counter.read(mark, width, wrap);
            hyphenation = after;
        }
    }
    counter.count().max(1)
}

/// Returns how many lines a text is wrapped into at a width in columns: the sum over its text lines, saturated at the
/// greatest 64-bit number. At a width above 0 this is what a paragraph of the text counts, but no paragraph is needed.
pub fn wrapped_count(text: &Text<'_>, width: u16, wrap: Wrap) -> usize
    ensures sum { result ≡ saturated (wrapped_text_len width wrap (text_data text.now)) }
    ensures lines { (alignment : Alignment) (lines : List GlyphLine) → WrappedText width wrap alignment (text_data text.now) lines
        → result ≡ saturated (length lines) }
{
    let base = text.text_style();
    let mut count = 0usize;
    for line in text.lines() {
        count = count.saturating_add(line_count(line, base, width, wrap));
    }
    count
}
