//! The lines of a text, to be wrapped or truncated.

ghost use Rattle.std.specs.Prelude.{◌≡◌, drop};
ghost use Rattle.std.specs.Iterator.{item_count, YieldsFirstBy};
ghost use Rattle.tui_text.specs.Text.{text_data};
ghost use Rattle.tui_para.specs.Given.{WillBe, WillGive};
ghost use Rattle.tui_para.specs.WrappedText.{text_glyph_lines};

use tui_cells::Style;
use tui_text::{Alignment, Graphemes, Line, Text};

/// The lines of a text, as a paragraph passes them to a composer. Each line gives its graphemes over the text's style,
/// and its own alignment or else the given one.
#[derive(Drop)]
pub struct TextLines<'s, 'a> {
    lines: &'s [Line<'a>],
    place: usize,
    style: Style,
    alignment: Alignment,
}

impl<'s, 'a> TextLines<'s, 'a> {
    ghost use Rattle.tui_para.specs.TextLines.{gives_graphemes, gives_lines, glyph_lines_left};

    /// Creates an iterator over all lines of the text. A composer over it yields the lines of the text in that
    /// alignment.
    pub fn new(text: &'s Text<'a>, alignment: Alignment) -> TextLines<'s, 'a>
        ensures left { glyph_lines_left result ≡ text_glyph_lines (text_data text.now) alignment }
        ensures gives { WillGive gives_lines (WillBe gives_graphemes) result (text_glyph_lines (text_data text.now) alignment) }
    {
        TextLines::after(text, alignment, 0)
    }

    /// Creates an iterator over the lines of the text after the first `passed` ones.
    pub(crate) fn after(text: &'s Text<'a>, alignment: Alignment, passed: u16) -> TextLines<'s, 'a>
        ensures left { glyph_lines_left result ≡ drop passed (text_glyph_lines (text_data text.now) alignment) }
        ensures gives { WillGive gives_lines (WillBe gives_graphemes) result (drop passed (text_glyph_lines (text_data text.now) alignment)) }
    {
        TextLines {
            lines: text.lines(),
            place: usize::from(passed),
            style: text.text_style(),
            alignment,
        }
    }
}

impl<'s, 'a> Iterator for TextLines<'s, 'a> {
    ghost use Rattle.tui_para.specs.TextLines.{glyph_line_left, glyph_lines_left};

    type Item = (Graphemes<'s, 'a>, Alignment);

    ghost next_gives = { YieldsFirstBy glyph_line_left glyph_lines_left };

    ghost remaining = { item_count glyph_lines_left };

    fn next(&mut self) -> Option<(Graphemes<'s, 'a>, Alignment)> {
        if self.place >= self.lines.len() {
            return None;
        }
        let line = &self.lines[self.place];
        self.place += 1;
        let alignment = line.line_alignment().unwrap_or(self.alignment);
        Some((line.styled_graphemes(self.style), alignment))
    }
}
