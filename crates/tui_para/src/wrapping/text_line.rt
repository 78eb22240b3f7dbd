//! One text line, wrapped into lines.

ghost use Rattle.std.specs.Prelude.{◌≡◌, ◌≤◌, ◌<◌, List, [], None, Some, true, false, length, drop, map, All, IfOk, IfSome, IsSome, OnOk};
ghost use Rattle.tui_text.specs.Grapheme.{Glyph, glyph_of, glyph_width};
ghost use Rattle.tui_para.specs.Given.{IsGlyph, MayGive, Ready, SourceGives, source_left};
ghost use Rattle.tui_para.specs.Hyphenation.{at_start};
ghost use Rattle.tui_para.specs.Marked.{splits_of, glyphs_of, part_of};

use crate::ends::read_line;
use crate::wrap::Wrap;
use crate::wrapping::breaking::{LineBounds, next_line};
use crate::wrapping::marked::Marked;
use crate::wrapping::part::LineRange;
use std::alloc::Global;
use tui_cells::Mem;
use tui_text::StyledGrapheme;

/// How many graphemes are read at once at least.
const MIN_CHUNK: usize = 16;

/// How many graphemes are read at once at least, after many were read. If a line is wider than half of this, it is
/// twice the line's width.
const MAX_CHUNK: usize = 512;

/// A text line that is wrapped and yielded in parts. It is read only as far as the parts need.
#[derive(Drop)]
pub(crate) struct TextLine<'a, I> {
    /// The iterator over the graphemes that are still to be read.
    source: Option<I>,
    /// The graphemes that were read. Those before the last yielded part may have been removed.
    line: Marked<'a>,
    width: u16,
    wrap: Wrap,
    /// How many graphemes are read next at least. These are few at first, since few lines may be requested.
    chunk: usize,
    /// The index of the first grapheme that was not yielded.
    place: usize,
    /// Whether no part of it was yielded yet.
    is_new: bool,
    ghost within: { place ≤ length (splits_of line) },
    ghost fit: { All (λ g. glyph_width g.0 ≤ width) (splits_of line) },
}

impl<'a, I> TextLine<'a, I> {
    ghost use Rattle.tui_para.specs.Wrapping.{AreNextBounds};

    /// Creates the state without a text line.
    pub(crate) fn new(alloc: Global, width: u16, wrap: Wrap) -> TextLine<'a, I>
        ensures source { result.source ≡ None }
        ensures line { splits_of result.line ≡ [] }
        ensures old { result.is_new ≡ false }
        ensures width { result.width ≡ width }
        ensures wrap { result.wrap ≡ wrap }
    {
        TextLine {
            source: None,
            line: Marked::new(alloc, wrap.hyphens),
            width,
            wrap,
            chunk: MIN_CHUNK,
            place: 0,
            is_new: false,
        }
    }

    pub(crate) fn width(&self) -> u16
        ensures { result ≡ self.now.width }
    {
        self.width
    }

    /// Returns the next line, if it is the same whatever graphemes are still to be read.
    fn known_line(&self) -> Option<LineBounds>
        ensures some { IfSome result (AreNextBounds self.now) }
        ensures none { result ≡ None → self.now.source ≡ None → (self.now.is_new ≡ false) × (drop self.now.place (splits_of self.now.line) ≡ []) }
    {
        if self.place >= self.line.len() {
            return self.empty_line();
        }
        let marks = self.line.marks();
        let rest = &marks[self.place..];
        let line = next_line(rest, self.width, self.wrap);
        if line.next == rest.len() && self.source.is_some() {
            return None;
        }
        Some(LineBounds {
            start: self.place + line.start,
            end: self.place + line.end,
            next: self.place + line.next,
            width: line.width,
        })
    }

    /// Returns the one empty line of a text line without graphemes.
    fn empty_line(&self) -> Option<LineBounds>
        ensures some { IfSome result (λ p. (self.now.is_new ≡ true) × (self.now.source ≡ None)
            × (p ≡ record { start = self.now.place; end = self.now.place; next = self.now.place; width = 0 })) }
        ensures none { result ≡ None → self.now.source ≡ None → self.now.is_new ≡ false }
    {
        if self.is_new && self.source.is_none() {
            Some(LineBounds {
                start: self.place,
                end: self.place,
                next: self.place,
                width: 0,
            })
        } else {
            None
        }
    }

    /// Moves past a line, and returns its range.
    fn pass(&mut self, line: LineBounds) -> LineRange
        requires { line.next ≤ length (splits_of self.old.line) }
        ensures source { self.new.source ≡ self.old.source }
        ensures line { self.new.line ≡ self.old.line }
        ensures width { self.new.width ≡ self.old.width }
        ensures wrap { self.new.wrap ≡ self.old.wrap }
        ensures is_new { self.new.is_new ≡ false }
        ensures place { self.new.place ≡ line.next }
        ensures part { result ≡ record { start = line.start; end = line.end; width = line.width } }
    {
        self.place = line.next;
        self.is_new = false;
        LineRange {
            start: line.start,
            end: line.end,
            width: line.width,
        }
    }

    /// Returns the graphemes of a part.
    pub(crate) fn part(&self, part: LineRange) -> &[StyledGrapheme<'a>]
        requires order { part.start ≤ part.end }
        requires within { part.end ≤ length (splits_of self.now.line) }
        ensures { map glyph_of result.now ≡ part_of (glyphs_of self.now.line) part }
    {
        self.line.part(part.start, part.end)
    }
}

impl<'a, I: Iterator<Item = StyledGrapheme<'a>>> TextLine<'a, I> {
    ghost use Rattle.tui_para.specs.Wrapping.{FindsPart, HasRead};

    /// Reads the rest of the text line to its end, and drops everything.
    pub(crate) fn read_to_end(self)
        requires { IfSome self.source (Ready I.Iterator) }
        ensures { (glyphs : List Glyph) × SourceGives (MayGive I.next_gives IsGlyph) self.entry.source glyphs }
    {
        let TextLine { source, .. } = self;
        if let Some(line) = source {
            read_line(line);
        }
    }

    /// Starts another text line.
    pub(crate) fn start(&mut self, source: I)
        ensures source { self.new.source ≡ Some source }
        ensures line { splits_of self.new.line ≡ [] }
        ensures start { self.new.line.hyphenation ≡ at_start self.new.wrap.hyphens }
        ensures is_new { self.new.is_new ≡ true }
        ensures width { self.new.width ≡ self.old.width }
        ensures wrap { self.new.wrap ≡ self.old.wrap }
    {
        self.place = 0;
        self.chunk = MIN_CHUNK;
        self.line.clear(self.wrap.hyphens);
        self.is_new = true;
        self.source = Some(source);
    }

    /// Advances to the next part, and returns its range. Reads more graphemes if those that were read don't determine
    /// it.
    pub(crate) fn advance(&mut self) -> Mem<Option<LineRange>>
        requires { IfSome self.old.source (Ready I.Iterator) }
        ensures ready { IfSome self.new.source (Ready I.Iterator) }
        ensures width { self.new.width ≡ self.old.width }
        ensures wrap { self.new.wrap ≡ self.old.wrap }
        ensures found { IfOk result (FindsPart I.next_gives self.old self.new) }
    {
        'lines: loop {
            if let Some(line) = self.known_line() {
                return Ok(Some(self.pass(line)));
            }
            if self.source.is_none() {
                return Ok(None);
            }
            self.read_more()?;
        }
    }

    /// Reads at least as many more graphemes as a line has columns and as were read but not yielded yet, or all that
    /// come.
    fn read_more(&mut self) -> Mem<()>
        requires { IfSome self.old.source (Ready I.Iterator) }
        ensures ready { IfSome self.new.source (Ready I.Iterator) }
        ensures same { (self.new.width ≡ self.old.width) × (self.new.wrap ≡ self.old.wrap) }
        ensures read { OnOk result (HasRead I.next_gives self.old self.new) }
        ensures nearer { OnOk result (IsSome self.old.source → source_left I.remaining self.new.source < source_left I.remaining self.old.source) }
    {
        let Some(source) = self.source.take() else {
            return Ok(());
        };
        self.line.drop_front(self.place);
        self.place = 0;
        let width = usize::from(self.width);
        let wanted = self.line.len().max(width);
        let count = wanted.max(self.chunk).max(MIN_CHUNK);
        self.chunk = count.saturating_mul(2).min(MAX_CHUNK.max(2 * width));
        self.source = self.line.read(source, count, self.width)?;
        Ok(())
    }
}
