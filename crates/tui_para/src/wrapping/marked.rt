//! The graphemes of one text line.

ghost use Rattle.std.specs.Prelude.{◌≡◌, ◌≤◌, ◌+◌, Bool, Some, List, [], ◌∷◌, ◌++◌, length, drop, map, take, IfOk, IfSome, OnOk, OnErr, vec_len};
ghost use Rattle.std.specs.Iterator.{size};
ghost use Rattle.std.specs.List.{between, zip};
ghost use Rattle.tui_text.specs.Grapheme.{Glyph, glyph_of};
ghost use Rattle.tui_text.specs.declared.grapheme.StyledGrapheme.{StyledGrapheme};
ghost use Rattle.tui_para.specs.Given.{Ready, SourceReads};
ghost use Rattle.tui_para.specs.Hyphenation.{at_start, after_all, marked_from};
ghost use Rattle.tui_para.specs.declared.wrapping.hyphenation.Hyphenation.{Hyphenation};
ghost use Rattle.tui_para.specs.declared.wrapping.hyphenation.Hyphenation.TheVariants.{Off};
ghost use Rattle.tui_para.specs.Mark.{AreMarks, is_split, mark_of};

use crate::wrapping::hyphenation::Hyphenation;
use crate::wrapping::mark::Mark;
use std::alloc::Global;
use tui_cells::{Mem, NoMemory};
use tui_text::StyledGrapheme;

/// A list of graphemes, and a list of their marks. Both are reused for each text line.
#[derive(Drop)]
pub(crate) struct Marked<'a> {
    graphemes: Vec<StyledGrapheme<'a>>,
    marks: Vec<Mark>,
    /// What comes before the next grapheme.
    hyphenation: Hyphenation,
    ghost together: { length graphemes.items ≡ length marks.items },
    ghost marked: { marks.items ≡ map mark_of (zip (map glyph_of graphemes.items) (map is_split marks.items)) },
}

impl<'a> Marked<'a> {
    ghost use Rattle.tui_para.specs.Marked.{HasKept, HasPushed, AreAppended, splits_of, glyphs_of};

    /// Creates an empty list, at the beginning of a text line.
    pub(crate) fn new(alloc: Global, hyphens: bool) -> Marked<'a>
        ensures none { splits_of result ≡ [] }
        ensures start { result.hyphenation ≡ at_start hyphens }
    {
        Marked {
            graphemes: Vec::new(alloc),
            marks: Vec::new(alloc),
            hyphenation: Hyphenation::new(hyphens),
        }
    }

    pub(crate) fn len(&self) -> usize
        ensures { result ≡ length (splits_of self.now) }
    {
        self.marks.len()
    }

    pub(crate) fn marks(&self) -> &[Mark]
        ensures { result.now ≡ map mark_of (splits_of self.now) }
    {
        &self.marks
    }

    /// Returns the graphemes between two indices.
    pub(crate) fn part(&self, start: usize, end: usize) -> &[StyledGrapheme<'a>]
        requires order { start ≤ end }
        requires within { end ≤ length (splits_of self.now) }
        ensures { map glyph_of result.now ≡ between start end (glyphs_of self.now) }
    {
        &self.graphemes[start..end]
    }

    /// Removes all graphemes, for the beginning of a text line.
    pub(crate) fn clear(&mut self, hyphens: bool)
        ensures none { splits_of self.new ≡ [] }
        ensures start { self.new.hyphenation ≡ at_start hyphens }
    {
        self.graphemes.clear();
        self.marks.clear();
        self.hyphenation = Hyphenation::new(hyphens);
    }

    fn push(&mut self, grapheme: StyledGrapheme<'a>, mark: Mark) -> Mem<()>
        requires { mark ≡ mark_of (glyph_of grapheme, mark.split) }
        ensures ok { OnOk result (splits_of self.new ≡ splits_of self.old ++ (glyph_of grapheme.entry, mark.split) ∷ []) }
        ensures err { OnErr result (splits_of self.new ≡ splits_of self.old) }
        ensures same { self.new.hyphenation ≡ self.old.hyphenation }
    {
        self.marks.push(mark)?;
        match self.graphemes.push(grapheme) {
            Ok(()) => Ok(()),
            Err(_) => {
                self.marks.pop();
                Err(NoMemory)
            }
        }
    }

    /// Appends a grapheme, unless it is wider than a line. A printable byte needs no table lookup.
    #[inline(always)]
    fn write(&mut self, grapheme: StyledGrapheme<'a>, width: u16) -> Mem<()>
        ensures ok { OnOk result (HasPushed width (grapheme.entry ∷ []) self.old self.new) }
        ensures err { OnErr result (HasPushed width [] self.old self.new) }
    {
        match Mark::of_printable(&grapheme) {
            Some(mark) if mark.width <= width => self.push(grapheme, mark),
            _ => self.push_other(grapheme, width),
        }
    }

    /// Does the same for any grapheme.
    #[inline(always)]
    fn push_other(&mut self, grapheme: StyledGrapheme<'a>, width: u16) -> Mem<()>
        ensures ok { OnOk result (HasPushed width (grapheme.entry ∷ []) self.old self.new) }
        ensures err { OnErr result (HasPushed width [] self.old self.new) }
    {
        let mark = Mark::unsplit(&grapheme);
        if mark.width <= width {
            self.push(grapheme, mark)?;
        }
        Ok(())
    }

    /// Removes the first `count` graphemes.
    pub(crate) fn drop_front(&mut self, count: usize)
        requires { count ≤ length (splits_of self.old) }
        ensures dropped { splits_of self.new ≡ drop count (splits_of self.old) }
        ensures same { self.new.hyphenation ≡ self.old.hyphenation }
    {
        drop_front(&mut self.graphemes, count);
        drop_front(&mut self.marks, count);
    }

    /// Reserves memory for `count` more graphemes at once. If it fails with `NoMemory`, the graphemes are unchanged.
    fn reserve(&mut self, count: usize) -> Mem<()>
        ensures splits { splits_of self.new ≡ splits_of self.old }
        ensures same { self.new.hyphenation ≡ self.old.hyphenation }
    {
        self.graphemes.reserve(count)?;
        self.marks.reserve(count)?;
        Ok(())
    }

    /// Reads `count` more graphemes, and keeps those that aren't wider than a line. Returns the iterator that gives the
    /// others, or `None` if it has ended.
    pub(crate) fn read<I: Iterator<Item = StyledGrapheme<'a>>>(
        &mut self,
        source: I,
        count: usize,
        width: u16,
    ) -> Mem<Option<I>>
        requires { Ready I.Iterator source }
        ensures fit { (before : Hyphenation) × (taken : List StyledGrapheme) × AreAppended before width taken self.old self.new }
        ensures read { IfOk result (λ left. (taken : List StyledGrapheme) × SourceReads I.next_gives (Some source) taken left
            × HasKept width taken self.old self.new) }
        ensures ready { IfOk result (λ left. IfSome left (λ i. Ready I.Iterator i × (size (I.remaining i) + count ≤ size (I.remaining source)))) }
    {
        let start = self.len();
        self.reserve(count)?;
        let left = self.push_all(source, count, width)?;
        self.mark_splits_from(start);
        Ok(left)
    }

    /// Does the same, but marks no split. Splits are marked afterwards, so that reading costs nothing for them if no
    /// word is split.
    fn push_all<I: Iterator<Item = StyledGrapheme<'a>>>(
        &mut self,
        mut source: I,
        count: usize,
        width: u16,
    ) -> Mem<Option<I>>
        requires { Ready I.Iterator source }
        ensures fit { (taken : List StyledGrapheme) × HasPushed width taken self.old self.new }
        ensures read { IfOk result (λ left. (taken : List StyledGrapheme) × SourceReads I.next_gives (Some source) taken left
            × HasPushed width taken self.old self.new) }
        ensures ready { IfOk result (λ left. IfSome left (λ i. Ready I.Iterator i × (size (I.remaining i) + count ≤ size (I.remaining source)))) }
    {
        'graphemes: for _read in 0..count {
            let Some(grapheme) = source.next() else {
                return Ok(None);
            };
            self.write(grapheme, width)?;
        }
        Ok(Some(source))
    }

    /// Marks where words are split among the graphemes from `start` on, which were added without splits.
    fn mark_splits_from(&mut self, start: usize)
        requires { start ≤ length (splits_of self.old) }
        ensures split { (front : List (Glyph × Bool)) (glyphs : List Glyph) → length front ≡ start → splits_of self.old ≡ front ++ marked_from Off glyphs
            → (splits_of self.new ≡ front ++ marked_from self.old.hyphenation glyphs) × (self.new.hyphenation ≡ after_all self.old.hyphenation glyphs) }
    {
        let before = self.hyphenation;
        if let Hyphenation::Off = before {
            return;
        }
        self.hyphenation = mark_splits(&self.graphemes, &mut self.marks, start, before);
    }
}

/// Marks where words are split among the graphemes from `start` on. Returns the state before the next grapheme.
fn mark_splits(
    graphemes: &[StyledGrapheme<'_>],
    marks: &mut Vec<Mark>,
    start: usize,
    before: Hyphenation,
) -> Hyphenation
    requires within { start ≤ length graphemes.now }
    requires marked { AreMarks graphemes.now marks.old.items }
    ensures after { result ≡ after_all before (map glyph_of (drop start graphemes.now)) }
    ensures marks { marks.new.items ≡ take start marks.old.items ++ map mark_of (marked_from before (map glyph_of (drop start graphemes.now))) }
{
    let mut last = before;
    for i in start..graphemes.len() {
        let after = last.after(&graphemes[i], marks[i]);
        marks[i].split = last.splits_before(after);
        last = after;
    }
    last
}

fn drop_front<T: Copy>(items: &mut Vec<T>, count: usize)
    requires { count ≤ vec_len items.old }
    ensures { items.new.items ≡ drop count items.old.items }
{
    if count == 0 {
        return;
    }
    let len = items.len();
    items.as_mut_slice().copy_within(count..len, 0);
    items.truncate(len - count);
}
