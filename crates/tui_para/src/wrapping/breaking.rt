//! Where the lines of a text line begin and end.

ghost use Rattle.std.specs.List.{between};
ghost use Rattle.std.specs.Prelude.{◌≡◌, ◌≤◌, ◌<◌, ◌+◌, ◌^◌, List, Bool, length, drop, take, map, sum_by, All};
ghost use Rattle.tui_text.specs.Grapheme.{Glyph};
ghost use Rattle.tui_para.specs.Mark.{ends_before, mark_of, is_blank, size_of};
ghost use Rattle.tui_para.specs.Places.{blanks_len, start_len, broken_len, line_len, dropped_len};
ghost use Rattle.tui_para.specs.Hyphens.{glyph_rule};
ghost use Rattle.tui_para.specs.Wrapped.{IsNextLine};

use crate::wrap::Wrap;
use crate::wrapping::mark::Mark;
use crate::wrapping::prefix::Prefix;

/// Returns how many whitespace graphemes are at the beginning.
fn leading_blanks(marks: &[Mark]) -> usize
    ensures within { result ≤ length marks.now }
    ensures len { result ≡ blanks_len is_blank marks.now }
{
    for (i, mark) in marks.iter().enumerate() {
        if !mark.blank {
            return i;
        }
    }
    marks.len()
}

/// Returns how many graphemes come before the line.
fn start_of(marks: &[Mark], trim: bool) -> usize
    ensures within { result ≤ length marks.now }
    ensures len { result ≡ start_len is_blank trim marks.now }
{
    if trim { leading_blanks(marks) } else { 0 }
}

/// Returns the line if the grapheme after `here` does not fit. The line goes up to the end of the last piece of a word
/// that has ended, or else up to that grapheme. The search goes backwards, so that `line_at` reads only the widths of
/// the graphemes that fit.
fn line_before(marks: &[Mark], here: Prefix) -> Prefix
    requires within { here.len < length marks.now }
    requires columns { here.room + sum_by size_of (take here.len marks.now) < 2 ^ 16 }
    ensures within { result.len ≤ here.len }
    ensures len { result.len ≡ broken_len ends_before is_blank here.len marks.now }
    ensures room { result.room + sum_by size_of (take result.len marks.now) ≡ here.room + sum_by size_of (take here.len marks.now) }
{
    let mut room = here.room;
    for back in 0..here.len {
        let place = here.len - back;
        if marks[place].ends_piece() && !marks[place - 1].blank {
            return Prefix { len: place, room };
        }
        room += marks[place - 1].width;
    }
    here
}

/// Returns the line at the beginning.
fn line_at(marks: &[Mark], width: u16) -> Prefix
    ensures within { result.len ≤ length marks.now }
    ensures len { result.len ≡ line_len ends_before is_blank size_of width marks.now }
    ensures room { result.room + sum_by size_of (take result.len marks.now) ≡ width }
{
    let mut room = width;
    for (i, mark) in marks.iter().enumerate() {
        if mark.width > room {
            return line_before(marks, Prefix { len: i, room });
        }
        room -= mark.width;
    }
    Prefix {
        len: marks.len(),
        room,
    }
}

/// Returns how many whitespace graphemes are dropped after a break that leaves `room` columns.
fn dropped(marks: &[Mark], room: u16) -> usize
    ensures within { result ≤ length marks.now }
    ensures len { result ≡ dropped_len is_blank size_of room marks.now }
{
    let mut left = room;
    for (i, mark) in marks.iter().enumerate() {
        if !mark.blank {
            return i;
        }
        if mark.width > left {
            return i + 1;
        }
        left -= mark.width;
    }
    marks.len()
}

/// A line among graphemes: where it begins and ends, where the rest begins, and its width in columns.
#[derive(Clone, Copy, Debug)]
pub(crate) struct LineBounds {
    pub start: usize,
    pub end: usize,
    pub next: usize,
    pub width: u16,
}

/// Returns the next line of graphemes with these marks, none of which is wider than a line.
pub(crate) fn next_line(marks: &[Mark], width: u16, wrap: Wrap) -> LineBounds
    requires { All (λ m. m.width ≤ width) marks.now }
    ensures order { (result.start ≤ result.end) × (result.end ≤ result.next) × (result.next ≤ length marks.now) }
    ensures moves { 0 < length marks.now → 0 < result.next }
    ensures width { result.width ≡ sum_by size_of (between result.start result.end marks.now) }
    ensures line { (graphemes : List (Glyph × Bool)) → map mark_of graphemes ≡ marks.now
        → IsNextLine (glyph_rule width wrap) graphemes (between result.start result.end graphemes) (drop result.next graphemes) }
{
    let start = start_of(marks, wrap.trim);
    let rest = &marks[start..];
    let line = line_at(rest, width);
    let blanks = dropped(&rest[line.len..], line.room);
    LineBounds {
        start,
        end: start + line.len,
        next: start + line.len + blanks,
        width: width - line.room,
    }
}
