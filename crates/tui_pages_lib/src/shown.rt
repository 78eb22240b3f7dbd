//! The part of a cell that is drawn on a page.

ghost use Rattle.std.specs.Prelude.{◌≡◌, ◌<◌, [], ◌∷◌, length, take, true};
ghost use Rattle.tui_line_places.specs.Parts.{HaveSameLines};
ghost use Rattle.tui_pages_lib.specs.Shown.{AreTextLines, newlines};

use tui_line_places::{Lines, first_part, is_after_newline};
use tui_para::wraps_exactly_once;

/// The newline byte.
const NEWLINE: u8 = 10;

/// Returns a prefix of a text that has the same first `lines` lines at a width. If the text before byte `near` consists
/// of at least `lines` complete text lines, that is the prefix; otherwise one that ends shortly after `near`.
pub(crate) fn visible_prefix(text: &str, width: u16, lines: usize, near: usize) -> &str
    requires { 0 < width }
    ensures { HaveSameLines width true lines text.now result.now }
{
    wraps_exactly_once();
    if are_text_lines(text.as_bytes(), near, lines) {
        if let Some((part, _)) = text.split_at_checked(near) {
            return part;
        }
    }
    first_part(text, Lines { width, trim: true }, lines, near)
}

/// Returns whether at least `lines` text lines are before byte `place`, and the last of them ends there.
fn are_text_lines(bytes: &[u8], place: usize, lines: usize) -> bool
    ensures { result ≡ true → AreTextLines lines (take place bytes.now) }
{
    is_after_newline(bytes, place) && lines <= newlines(&bytes[..place])
}

fn newlines(bytes: &[u8]) -> usize
    ensures { result ≡ length (newlines bytes.now) }
{
    let mut count = 0;
    'bytes: for i in 0..bytes.len() {
        count += one_if_newline(bytes[i]);
    }
    count
}

fn one_if_newline(byte: u8) -> usize
    ensures { result ≡ length (newlines (byte ∷ [])) }
{
    if byte == NEWLINE { 1 } else { 0 }
}
