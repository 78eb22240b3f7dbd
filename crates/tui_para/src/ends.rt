//! Reads iterators over graphemes to their ends. That they end shows what they may give.

ghost use Rattle.std.specs.Prelude.{List};
ghost use Rattle.std.specs.Iterator.{Drains};
ghost use Rattle.tui_text.specs.declared.grapheme.StyledGrapheme.{StyledGrapheme};
ghost use Rattle.tui_para.specs.Given.{AllReady, MayBe, MayGive, Ready};
ghost use Rattle.tui_para.specs.Lines.{GlyphLine};

use tui_text::{Alignment, StyledGrapheme};

/// Reads the graphemes of a line.
pub(crate) fn read_line<'a, I: Iterator<Item = StyledGrapheme<'a>>>(line: I)
    requires { Ready I.Iterator line }
    ensures { (all : List StyledGrapheme) × Drains I.next_gives line all }
{
    for _grapheme in line {}
}

/// Reads lines, and the graphemes of each.
pub(crate) fn read_lines<'a, O, I>(lines: O)
where
    O: Iterator<Item = (I, Alignment)>,
    I: Iterator<Item = StyledGrapheme<'a>>,
    requires { AllReady O.Iterator I.Iterator lines }
    ensures { (glyph_lines : List GlyphLine) × MayGive O.next_gives (MayBe I.next_gives) lines glyph_lines }
{
    'lines: for (line, _alignment) in lines {
        read_line(line);
    }
}
