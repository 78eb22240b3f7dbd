//! Wraps text lines.

ghost use Rattle.std.specs.Prelude.{◌≡◌, ◌↔◌, List, false, true, IfOk, MatchResult};
ghost use Rattle.tui_text.specs.Grapheme.{Glyph};
ghost use Rattle.tui_para.specs.Given.{AllReady, IsGlyph, MayGive, MayBe, SourceGives, WillGive, WillBe};
ghost use Rattle.tui_para.specs.Hyphens.{at_blanks};
ghost use Rattle.tui_para.specs.Lines.{GlyphLine, LinesOf, GivenUnlessDone, WrapsLine};
ghost use Rattle.tui_para.specs.Wrapping.{FindsLine, WrapperCanYield, WrapperMayYield, WrapperWillYield};

use crate::composer::{LineComposer, WrappedLine};
use crate::ends::read_lines;
use crate::wrap::Wrap;
use crate::wrapping::part::LineRange;
use crate::wrapping::text_line::TextLine;
use std::alloc::Global;
use tui_cells::{Mem, NoMemory};
use tui_text::{Alignment, StyledGrapheme};

/// Wraps text lines at whitespace and, if requested, after hyphens. Yields the lines of each text line in order, with
/// its alignment.
#[derive(Drop)]
pub struct WordWrapper<'a, O, I> {
    lines: O,
    current: TextLine<'a, I>,
    alignment: Alignment,
    done: bool,
    failed: bool,
}

impl<'a, O, I> WordWrapper<'a, O, I>
where
    O: Iterator<Item = (I, Alignment)>,
    I: Iterator<Item = StyledGrapheme<'a>>,
{
    /// Creates a wrapper over text lines, into lines of at most `max_line_width` columns. With `trim`, whitespace at
    /// the beginning of each line is dropped. Lines break at whitespace only; `with_wrap` can break them after hyphens
    /// too.
    pub fn new(alloc: Global, lines: O, max_line_width: u16, trim: bool) -> WordWrapper<'a, O, I>
        ensures failed { result.failed ≡ false }
        ensures ready { AllReady O.Iterator I.Iterator lines → WrapperCanYield O.Iterator I.Iterator result }
        ensures may { (glyph_lines : List GlyphLine) → WrapperMayYield O.next_gives I.next_gives result glyph_lines
            ↔ LinesOf (MayGive O.next_gives (MayBe I.next_gives) lines) (WrapsLine max_line_width (at_blanks trim)) max_line_width glyph_lines }
        ensures will { (glyph_lines : List GlyphLine) → WrapperWillYield O.next_gives I.next_gives result glyph_lines
            ↔ LinesOf (WillGive O.next_gives (WillBe I.next_gives) lines) (WrapsLine max_line_width (at_blanks trim)) max_line_width glyph_lines }
    {
        let wrap = Wrap {
            trim,
            hyphens: false,
        };
        WordWrapper::with_wrap(alloc, lines, max_line_width, wrap)
    }

    /// Creates a wrapper over text lines, into lines of at most `max_line_width` columns. With `trim`, whitespace at
    /// the beginning of each line is dropped. With `hyphens`, a line may also end after a `-` that is inside a word,
    /// directly between two graphemes that aren't `-`.
    pub fn with_wrap(
        alloc: Global,
        lines: O,
        max_line_width: u16,
        wrap: Wrap,
    ) -> WordWrapper<'a, O, I>
        ensures failed { result.failed ≡ false }
        ensures ready { AllReady O.Iterator I.Iterator lines → WrapperCanYield O.Iterator I.Iterator result }
        ensures may { (glyph_lines : List GlyphLine) → WrapperMayYield O.next_gives I.next_gives result glyph_lines
            ↔ LinesOf (MayGive O.next_gives (MayBe I.next_gives) lines) (WrapsLine max_line_width wrap) max_line_width glyph_lines }
        ensures will { (glyph_lines : List GlyphLine) → WrapperWillYield O.next_gives I.next_gives result glyph_lines
            ↔ LinesOf (WillGive O.next_gives (WillBe I.next_gives) lines) (WrapsLine max_line_width wrap) max_line_width glyph_lines }
    {
        WordWrapper {
            lines,
            current: TextLine::new(alloc, max_line_width, wrap),
            alignment: Alignment::Left,
            done: false,
            failed: false,
        }
    }

    /// Advances to the next line, and returns its range in the text line.
    fn advance(&mut self) -> Mem<Option<LineRange>>
        requires { WrapperCanYield O.Iterator I.Iterator self.old }
        ensures ready { WrapperCanYield O.Iterator I.Iterator self.new }
        ensures failed { MatchResult result (λ _. (self.old.failed ≡ false) × (self.new.failed ≡ false)) (λ _. self.new.failed ≡ true) }
        ensures found { IfOk result (FindsLine O.next_gives I.next_gives self.old self.new) }
    {
        if self.failed {
            return Err(NoMemory);
        }
        let found = self.find_line();
        self.failed = found.is_err();
        found
    }

    /// Advances to the next line of a wrapper that has not failed.
    fn find_line(&mut self) -> Mem<Option<LineRange>>
        requires { WrapperCanYield O.Iterator I.Iterator self.old }
        ensures ready { WrapperCanYield O.Iterator I.Iterator self.new }
        ensures found { IfOk result (FindsLine O.next_gives I.next_gives self.old self.new) }
    {
        if self.current.width() == 0 {
            return Ok(None);
        }
        if let Some(part) = self.current.advance()? {
            return Ok(Some(part));
        }
        if self.done {
            return Ok(None);
        }
        match self.lines.next() {
            None => {
                self.done = true;
                Ok(None)
            }
            Some((line, alignment)) => {
                self.alignment = alignment;
                self.current.start(line);
                self.current.advance()
            }
        }
    }

    /// Reads its iterators to their ends, and drops everything.
    pub(crate) fn read_to_end(self)
        requires { WrapperCanYield O.Iterator I.Iterator self }
        ensures source { (glyphs : List Glyph) × SourceGives (MayGive I.next_gives IsGlyph) self.entry.current.source glyphs }
        ensures lines { (glyph_lines : List GlyphLine)
            × GivenUnlessDone self.entry.done (MayGive O.next_gives (MayBe I.next_gives) self.entry.lines) glyph_lines }
    {
        let WordWrapper {
            lines,
            current,
            done,
            ..
        } = self;
        current.read_to_end();
        if !done {
            read_lines(lines);
        }
    }
}

impl<'a, O, I> LineComposer<'a> for WordWrapper<'a, O, I>
where
    O: Iterator<Item = (I, Alignment)>,
    I: Iterator<Item = StyledGrapheme<'a>>,
{
    ghost can_yield = { WrapperCanYield O.Iterator I.Iterator };

    ghost to_come = { WrapperMayYield O.next_gives I.next_gives };

    ghost must_yield = { WrapperWillYield O.next_gives I.next_gives };

    ghost has_failed = { λ s. s.failed };

    fn next_line<'l>(&'l mut self) -> Mem<Option<WrappedLine<'l, 'a>>> {
        match self.advance()? {
            None => Ok(None),
            Some(part) => {
                let alignment = self.alignment;
                let graphemes = self.current.part(part);
                Ok(Some(WrappedLine {
                    graphemes,
                    width: part.width,
                    alignment,
                }))
            }
        }
    }
}
