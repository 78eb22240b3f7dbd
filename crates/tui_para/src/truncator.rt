//! Truncates text lines.

ghost use Rattle.std.specs.Prelude.{◌≡◌, ◌↔◌, ℕ, List, false, true, IfOk, MatchResult};
ghost use Rattle.tui_para.specs.Given.{AllReady, MayGive, MayBe, WillGive, WillBe};
ghost use Rattle.tui_para.specs.Lines.{GlyphLine, LinesOf, TruncatesLine, GivenUnlessDone};
ghost use Rattle.tui_para.specs.Wrapping.{FindsTruncated, TruncatorCanYield, TruncatorMayYield, TruncatorWillYield};

use crate::composer::{LineComposer, WrappedLine};
use crate::ends::read_lines;
use crate::truncating::refilling::refill;
use crate::truncating::truncation::Truncation;
use std::alloc::Global;
use std::marker::PhantomData;
use tui_cells::{Mem, NoMemory};
use tui_text::{Alignment, StyledGrapheme};

/// Truncates text lines at a width. Yields the graphemes of each that fit, with its alignment. Reads each to its end,
/// and stores only what is shown of it.
#[derive(Drop)]
pub struct LineTruncator<'a, O, I> {
    of: PhantomData<I>,
    lines: O,
    shown: Vec<StyledGrapheme<'a>>,
    width: u16,
    offset: u16,
    alignment: Alignment,
    done: bool,
    failed: bool,
}

impl<'a, O, I> LineTruncator<'a, O, I>
where
    O: Iterator<Item = (I, Alignment)>,
    I: Iterator<Item = StyledGrapheme<'a>>,
{
    /// Creates a truncator over text lines, into lines of at most `max_line_width` columns, with offset 0. The clauses
    /// state what it yields for each offset that may be set before the first line.
    pub fn new(alloc: Global, lines: O, max_line_width: u16) -> LineTruncator<'a, O, I>
        ensures failed { result.failed ≡ false }
        ensures offset { result.offset ≡ 0 }
        ensures ready { AllReady O.Iterator I.Iterator lines → TruncatorCanYield O.Iterator I.Iterator result }
        ensures may { (offset : ℕ) (glyph_lines : List GlyphLine) → TruncatorMayYield O.next_gives I.next_gives (record result { offset = offset }) glyph_lines
            ↔ LinesOf (MayGive O.next_gives (MayBe I.next_gives) lines) (TruncatesLine max_line_width offset) max_line_width glyph_lines }
        ensures will { (offset : ℕ) (glyph_lines : List GlyphLine) → TruncatorWillYield O.next_gives I.next_gives (record result { offset = offset }) glyph_lines
            ↔ LinesOf (WillGive O.next_gives (WillBe I.next_gives) lines) (TruncatesLine max_line_width offset) max_line_width glyph_lines }
    {
        LineTruncator {
            of: PhantomData,
            lines,
            shown: Vec::new(alloc),
            width: max_line_width,
            offset: 0,
            alignment: Alignment::Left,
            done: false,
            failed: false,
        }
    }

    /// Sets how many columns are left out at the left of each line that is aligned to the left.
    pub fn set_horizontal_offset(&mut self, offset: u16)
        ensures { self.new ≡ record self.old { offset = offset } }
    {
        self.offset = offset;
    }

    /// Advances to the next line, and returns its width in columns.
    fn advance(&mut self) -> Mem<Option<u16>>
        requires { TruncatorCanYield O.Iterator I.Iterator self.old }
        ensures ready { TruncatorCanYield O.Iterator I.Iterator self.new }
        ensures failed { MatchResult result (λ _. (self.old.failed ≡ false) × (self.new.failed ≡ false)) (λ _. self.new.failed ≡ true) }
        ensures found { IfOk result (FindsTruncated O.next_gives I.next_gives self.old self.new) }
    {
        if self.failed {
            return Err(NoMemory);
        }
        if self.width == 0 || self.done {
            return Ok(None);
        }
        match self.lines.next() {
            None => {
                self.done = true;
                Ok(None)
            }
            Some((line, alignment)) => {
                self.alignment = alignment;
                let truncation = Truncation::new(self.width, alignment, self.offset);
                match refill(&mut self.shown, line, truncation) {
                    Err(_) => {
                        self.failed = true;
                        Err(NoMemory)
                    }
                    Ok(columns) => Ok(Some(columns)),
                }
            }
        }
    }

    /// Reads its iterators to their ends, and drops everything.
    pub(crate) fn read_to_end(self)
        requires { TruncatorCanYield O.Iterator I.Iterator self }
        ensures { (glyph_lines : List GlyphLine) × GivenUnlessDone self.entry.done (MayGive O.next_gives (MayBe I.next_gives) self.entry.lines) glyph_lines }
    {
        let LineTruncator { lines, done, .. } = self;
        if !done {
            read_lines(lines);
        }
    }
}

impl<'a, O, I> LineComposer<'a> for LineTruncator<'a, O, I>
where
    O: Iterator<Item = (I, Alignment)>,
    I: Iterator<Item = StyledGrapheme<'a>>,
{
    ghost can_yield = { TruncatorCanYield O.Iterator I.Iterator };

    ghost to_come = { TruncatorMayYield O.next_gives I.next_gives };

    ghost must_yield = { TruncatorWillYield O.next_gives I.next_gives };

    ghost has_failed = { λ s. s.failed };

    fn next_line<'l>(&'l mut self) -> Mem<Option<WrappedLine<'l, 'a>>> {
        match self.advance()? {
            None => Ok(None),
            Some(width) => {
                let alignment = self.alignment;
                Ok(Some(WrappedLine {
                    graphemes: &self.shown,
                    width,
                    alignment,
                }))
            }
        }
    }
}
