//! Finds where the lines of one text line end, and counts them, from numbers only.

ghost use Rattle.std.specs.Prelude.{◌≡◌, ◌+◌, ◌<◌, ◌≤◌, ◌^◌, if◌then◌else◌, false, true, MatchOption};
ghost use Rattle.tui_clusters.specs.Width.{saturated};
ghost use Rattle.tui_para.specs.Mark.{ends_before};
ghost use Rattle.tui_para.specs.Counting.{
  Fits,
  add_blank,
  add_letter,
  after_piece,
  counted,
  end_at,
  end_line,
  ended_with,
  leaves_out,
  line_end,
  no_lines,
  overflows,
  read_at,
  read_in,
  saturated_count,
  step,
  break_before_word,
};

use crate::counting::line_end::LineEnd;
use crate::wrap::Wrap;
use crate::wrapping::mark::Mark;

/// Counts the lines of the graphemes that were read, and keeps the state of the last of these lines.
#[derive(Clone, Copy, Debug)]
pub struct Counter {
    /// How many lines have ended, saturated at the greatest 64-bit number.
    lines: usize,
    /// Whether a grapheme comes after the last line that has ended.
    some: bool,
    /// Whether a piece of a word has ended in the line under way.
    begun: bool,
    /// Whether a piece of a word is under way.
    in_word: bool,
    /// The width of the line under way, in columns.
    used: u32,
    /// The width of the piece of a word with which it ends, in columns.
    word: u32,
}

impl Counter {
    /// Creates a counter that has read no grapheme.
    pub fn new() -> Counter
        ensures { result ≡ no_lines }
    {
        Counter {
            lines: 0,
            some: false,
            begun: false,
            in_word: false,
            used: 0,
            word: 0,
        }
    }

    /// Whether a piece of a word is under way, which the next letter would continue.
    pub fn is_in_word(&self) -> bool
        ensures { result ≡ self.now.in_word }
    {
        self.in_word
    }

    /// Reads one more grapheme of a text line that is wrapped to `width` columns. If the line under way has no room for
    /// it, returns where that line ends.
    #[inline(always)]
    pub fn read_in_line(&mut self, mark: Mark, width: u16, wrap: Wrap) -> Option<LineEnd>
        ensures end { Fits width self.old
            → result ≡ line_end width wrap.trim (after_piece self.old (ends_before mark)) mark.width mark.blank }
        ensures new { Fits width self.old → MatchOption result
            (self.new ≡ read_in wrap.trim (after_piece self.old (ends_before mark)) mark.width mark.blank)
            (λ _. self.new ≡ after_piece self.old (ends_before mark)) }
    {
        self.end_piece(mark.ends_piece());
        if self.leaves_out(mark.blank, wrap.trim) {
            self.some = true;
            return None;
        }
        if self.overflows(mark.width, width) {
            return Some(self.line_end(mark.blank));
        }
        self.add(mark.width, mark.blank);
        None
    }

    /// Reads one more grapheme, which is not wider than a line.
    #[inline(always)]
    pub(crate) fn read(&mut self, mark: Mark, width: u16, wrap: Wrap)
        requires small { mark.width ≤ width }
        requires fits { Fits width self.old }
        ensures step { saturated_count self.new ≡ saturated_count (step width wrap.trim self.old mark.width (ends_before mark) mark.blank) }
        ensures fits { Fits width self.new }
    {
        self.end_piece(mark.ends_piece());
        if mark.blank {
            self.read_blank(mark.width, width, wrap.trim);
        } else {
            self.read_letter(mark.width, width, wrap.trim);
        }
    }

    #[inline(always)]
    fn read_blank(&mut self, size: u16, width: u16, trim: bool)
        requires small { size ≤ width }
        requires fits { Fits width self.old }
        ensures read { saturated_count self.new
            ≡ saturated_count (read_at width self.old size (read_in trim self.old size true) (line_end width trim self.old size true)) }
        ensures fits { Fits width self.new }
    {
        if trim && !self.begun {
            self.some = true;
        } else if self.overflows(size, width) {
            self.end_line();
        } else {
            self.used += u32::from(size);
            self.some = true;
        }
    }

    #[inline(always)]
    fn read_letter(&mut self, size: u16, width: u16, trim: bool)
        requires small { size ≤ width }
        requires fits { Fits width self.old }
        ensures read { saturated_count self.new
            ≡ saturated_count (read_at width self.old size (read_in trim self.old size false) (line_end width trim self.old size false)) }
        ensures fits { Fits width self.new }
    {
        if self.overflows(size, width) {
            self.end_before(size, width);
        }
        self.used += u32::from(size);
        self.word += u32::from(size);
        self.in_word = true;
        self.some = true;
    }

    /// Returns the number of lines, including the one under way.
    pub(crate) fn count(self) -> usize
        ensures { result ≡ saturated (counted self) }
    {
        if self.some {
            self.lines.saturating_add(1)
        } else {
            self.lines
        }
    }

    /// Ends the piece of a word under way, if one ends here.
    #[inline(always)]
    fn end_piece(&mut self, ends: bool)
        ensures { self.new ≡ after_piece self.old ends }
    {
        if ends && self.in_word {
            self.word = 0;
            self.in_word = false;
            self.begun = true;
        }
    }

    /// Whether the next grapheme is dropped at the beginning of a line.
    #[inline(always)]
    fn leaves_out(&self, blank: bool, trim: bool) -> bool
        ensures { result ≡ leaves_out trim self.now blank }
    {
        blank && trim && !self.begun
    }

    #[inline(always)]
    fn overflows(&self, size: u16, width: u16) -> bool
        ensures { result ≡ overflows width self.now size }
    {
        u64::from(self.used) + u64::from(size) > u64::from(width)
    }

    /// Returns where the line under way ends if it has no room for the next grapheme.
    fn line_end(&self, blank: bool) -> LineEnd
        ensures { result ≡ end_at self.now blank }
    {
        if blank {
            LineEnd::AfterBlank
        } else if self.begun {
            LineEnd::BeforeWord
        } else {
            LineEnd::WithinWord
        }
    }

    /// Adds a grapheme for which there is room to the line under way.
    #[inline(always)]
    fn add(&mut self, size: u16, blank: bool)
        requires room { self.old.used + size < 2 ^ 32 }
        ensures { self.old.word ≤ self.old.used → self.new ≡ (if blank then add_blank self.old size else add_letter self.old size) }
    {
        self.used += u32::from(size);
        self.some = true;
        if !blank {
            self.word = self.word.saturating_add(u32::from(size));
            self.in_word = true;
        }
    }

    /// Ends the line under way before a letter for which it has no room, and the next line too if that has no room
    /// either.
    fn end_before(&mut self, size: u16, width: u16)
        requires small { size ≤ width }
        requires fits { Fits width self.old }
        requires full { overflows width self.old size ≡ true }
        ensures lines { saturated_count (add_letter self.new size) ≡ saturated_count (ended_with width self.old size (end_at self.old false)) }
        ensures room { (self.new.used + size ≤ width) × (self.new.word ≤ self.new.used) }
    {
        if self.begun {
            self.break_before_word();
            self.end_full_line(size, width);
        } else {
            self.end_line();
        }
    }

    fn end_full_line(&mut self, size: u16, width: u16)
        ensures { self.new ≡ (if overflows width self.old size then saturated_count (end_line self.old) else self.old) }
    {
        if self.overflows(size, width) {
            self.end_line();
        }
    }

    fn end_line(&mut self)
        ensures { self.new ≡ saturated_count (end_line self.old) }
    {
        *self = Counter {
            lines: self.lines.saturating_add(1),
            ..Counter::new()
        };
    }

    /// Ends the line before the piece of a word that is under way.
    fn break_before_word(&mut self)
        ensures { self.new ≡ saturated_count (break_before_word self.old) }
    {
        self.lines = self.lines.saturating_add(1);
        self.some = true;
        self.begun = false;
        self.used = self.word;
    }
}
