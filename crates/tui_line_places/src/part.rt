//! A prefix of a text with the same first lines, for when nothing after it is shown.

ghost use Rattle.std.specs.Prelude.{◌≡◌, ◌↔◌, ◌<◌, ◌≤◌, ◌⊎◌, ◌++◌, ℕ, IsTrue, List, length, take, true};
ghost use Rattle.tui_cells.specs.declared.style.Style.{Style};
ghost use Rattle.tui_text.specs.declared.alignment.Alignment.{Alignment};
ghost use Rattle.tui_line_places.specs.AfterLine.{wrapped_lines};
ghost use Rattle.tui_line_places.specs.Parts.{EndsBetweenPrintable, EndsInNewline, HaveSameLines};

use crate::lines::Lines;
use crate::places::rest_from;
use tui_clusters::is_printable;

/// The byte of a newline.
const NEWLINE: u8 = 10;

/// How many bytes are searched for a newline.
const NEWLINE_REACH: usize = 512;

/// How many bytes are searched for two adjacent printable ASCII characters.
const SEAM_REACH: usize = 64;

/// Returns a prefix of the text that has the same first `count` wrapped lines. The prefix ends after the first newline
/// from byte `near` on or, little more than a line later, between two printable ASCII characters.
///
/// Returns the whole text if no such position is within reach, or if the prefix has no more than `count` lines. The
/// cost is that of wrapping these lines and of searching some hundred bytes. Does not allocate.
pub fn first_part(text: &str, lines: Lines, count: usize, near: usize) -> &str
    ensures same { HaveSameLines lines.width lines.trim count text.now result.now }
    ensures part { (rest : List ℕ) × (text.now ≡ result.now ++ rest) }
{
    let end = part_end(text, lines.width, near);
    match text.split_at_checked(end) {
        Some((part, _)) => {
            if is_cut(text, end) && has_more_lines(part, lines, count) {
                part
            } else {
                text
            }
        }
        None => text,
    }
}

/// Returns where the prefix is to end: after the first newline from byte `near` on. If no newline comes within about
/// one line, it ends at the next seam. There is no clause, since `first_part` checks the position.
fn part_end(text: &str, width: u16, near: usize) -> usize {
    let bytes = text.as_bytes();
    let far = near.saturating_add(line_bytes(width));
    if let Some(place) = newline_end(bytes, near, far) {
        return place;
    }
    if let Some(place) = seam_from(bytes, far) {
        return place;
    }
    match newline_end(bytes, far, far.saturating_add(NEWLINE_REACH)) {
        Some(place) => place,
        None => text.len(),
    }
}

/// Estimates how many bytes a line takes, with the character before which it ends.
fn line_bytes(width: u16) -> usize {
    let width = usize::from(width);
    width + width / 4 + 1
}

/// Returns the position after the first newline in the bytes `from..to`.
fn newline_end(bytes: &[u8], from: usize, to: usize) -> Option<usize> {
    'bytes: for i in from..bytes.len().min(to) {
        if bytes[i] == NEWLINE {
            return Some(i + 1);
        }
    }
    None
}

/// Returns the first position from `from` on, within reach, that is between two printable ASCII characters.
fn seam_from(bytes: &[u8], from: usize) -> Option<usize> {
    'places: for place in from..bytes.len().min(from.saturating_add(SEAM_REACH)) {
        if is_seam(bytes, place) {
            return Some(place);
        }
    }
    None
}

/// Returns true only if the lines of the text before `place`, except for the last one, are also lines of the whole
/// text.
fn is_cut(text: &str, place: usize) -> bool
    ensures { result ≡ true → EndsInNewline (take place text.now) ⊎ EndsBetweenPrintable text.now place }
{
    let bytes = text.as_bytes();
    is_after_newline(bytes, place) || is_seam(bytes, place)
}

/// Whether a newline comes directly before `place`, which may be the end.
pub fn is_after_newline(bytes: &[u8], place: usize) -> bool
    ensures { IsTrue result ↔ (place ≤ length bytes.now) × EndsInNewline (take place bytes.now) }
{
    0 < place && place <= bytes.len() && bytes[place - 1] == NEWLINE
}

fn is_seam(bytes: &[u8], place: usize) -> bool
    ensures { result ≡ true → EndsBetweenPrintable bytes.now place }
{
    0 < place && place < bytes.len() && is_printable(bytes[place - 1]) && is_printable(bytes[place])
}

/// Returns true only if the text has more than `count` lines.
fn has_more_lines(text: &str, lines: Lines, count: usize) -> bool
    ensures { result ≡ true → (style : Style) (alignment : Alignment) → count < length (wrapped_lines style alignment lines.width lines.trim text.now) }
{
    match rest_from(text, lines, count) {
        Some(_) => true,
        None => false,
    }
}
