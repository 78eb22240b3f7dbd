//! Blanks and control characters.

ghost use Rattle.std.specs.Prelude.{◌≡◌, ◌≢◌, chars, false, IsTrue};
ghost use Rattle.std.specs.Char.{is_whitespace};
ghost use Rattle.std.specs.List.{list_all};
ghost use Rattle.tui_clusters.specs.Blank.{is_blank_text};
ghost use Rattle.tui_clusters.specs.Shown.{has_control};

use crate::plain::{high_char, is_ideograph, is_letter};
use crate::printable::printable_byte;

/// Whether the text of a cluster is a blank, at which a line may break: U+200B, or only white space that is not exactly
/// U+00A0. An empty text is a blank. Always inlined, with only the test for one printable byte. Anything more would
/// cost a call for each grapheme.
#[inline(always)]
#[tactic(auto, using(crate::proofs::OneByte::printable_blank), unfolding(crate::specs::Blank::is_blank_text))]
pub fn is_blank(text: &str) -> bool
    ensures { result ≡ is_blank_text text.now }
{
    if let Some(byte) = printable_byte(text) {
        return byte == b' ';
    }
    looked_up_blank(text)
}

// Never inlined, so that a printable byte costs no call.
#[inline(never)]
#[tactic(auto, unfolding(crate::specs::Blank::is_blank_text))]
fn looked_up_blank(text: &str) -> bool
    ensures { result ≡ is_blank_text text.now }
{
    if is_ideograph(text) {
        return false;
    }
    if is_letter(text) {
        return false;
    }
    if is_non_blank(text) {
        return false;
    }
    let white = is_white(text);
    let hard = text == "\u{a0}";
    let zero = text == "\u{200b}";
    zero || white && !hard
}

/// Whether the text is one character above U+00A0 that is not a blank.
#[inline]
fn is_non_blank(text: &str) -> bool
    ensures { IsTrue result → is_blank_text text.now ≡ false }
{
    match high_char(text) {
        Some(c) => is_non_blank_char(c),
        None => false,
    }
}

#[inline]
fn is_non_blank_char(c: char) -> bool
    ensures { IsTrue result → (is_whitespace c ≡ false) × (c ≢ 0x200b) }
{
    !c.is_whitespace() && c != '\u{200b}'
}

fn is_white(text: &str) -> bool
    ensures { result ≡ list_all is_whitespace (chars text.now) }
{
    text.chars().all(|c| c.is_whitespace())
}

/// Whether the text holds a control character. Such a text is never shown.
#[tactic(auto, unfolding(crate::specs::Shown::has_control))]
pub fn has_control(text: &str) -> bool
    ensures { result ≡ has_control text.now }
{
    if let Some(_byte) = printable_byte(text) {
        return false;
    }
    text.chars().any(|c| c.is_control())
}
