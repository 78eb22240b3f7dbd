//! Plain characters: no rule for grapheme clusters joins one with another.

ghost use Rattle.std.specs.Prelude.{◌≡◌, ◌<◌, ◌≤◌, ◌↔◌, ◌&&◌, nat_le, [], ◌∷◌, ◌++◌, chars, length, encode_utf8, None, IfSome, IsTrue};
ghost use Rattle.std.specs.Str.{IsUtf8};
ghost use Rattle.tui_clusters.specs.Plain.{
  is_plain,
  is_sign_start,
  plain_len,
  BeginsPrintable,
  IsIdeograph,
  IsLetter,
  IsPlainChar,
  IsPlainFirst,
  IsPlainRun,
  IsSeam,
  IsSign,
};

use crate::printable::{is_printable, printable_len};

/// Whether the character is plain.
#[inline]
pub(crate) fn is_plain(c: char) -> bool
    ensures { result ≡ is_plain c }
{
    let code = c as u32;
    if code < 0x2028 {
        is_low_plain(code)
    } else {
        is_high_plain(code)
    }
}

#[inline]
#[tactic(auto, unfolding(crate::specs::Plain::is_plain))]
fn is_low_plain(code: u32) -> bool
    ensures { code < 0x2028 → result ≡ is_plain code }
{
    is_within(code, 0x20, 0x7e)
        | is_within(code, 0xae, 0x2ff)
        | is_within(code, 0x370, 0x482)
        | is_within(code, 0x48a, 0x590)
        | is_within(code, 0x1e00, 0x1fff)
        | is_within(code, 0x2010, 0x2027)
}

#[inline]
#[tactic(auto, unfolding(crate::specs::Plain::is_plain))]
fn is_high_plain(code: u32) -> bool
    ensures { 0x2028 ≤ code → result ≡ is_plain code }
{
    is_within(code, 0x20f1, 0x2cee)
        | is_within(code, 0x3001, 0x3029)
        | is_within(code, 0x3030, 0x3098)
        | is_within(code, 0x309b, 0xa66e)
        | is_within(code, 0xff00, 0xff9d)
}

#[inline]
fn is_within(code: u32, low: u32, high: u32) -> bool
    ensures { result ≡ (nat_le low code && nat_le code high) }
{
    low <= code && code <= high
}

/// Returns the length in bytes of the plain character that begins with this byte, or 0 if the byte alone doesn't
/// identify one.
#[inline]
#[tactic(auto, unfolding(crate::specs::Plain::plain_len))]
fn plain_len(byte: u8) -> usize
    ensures { result ≡ plain_len byte }
{
    let code = byte as u32;
    if is_within(code, 0x20, 0x7e) {
        1
    } else if is_within(code, 0xe4, 0xe9) {
        3
    } else if is_within(code, 0xc3, 0xcb) | is_within(code, 0xce, 0xd1) {
        2
    } else {
        0
    }
}

/// Whether a text begins with a printable ASCII character and then ends, or continues with another one.
#[inline(always)]
pub fn is_printable_first(text: &str) -> bool
    requires { 0 < length text.now }
    ensures is { IsTrue result ↔ BeginsPrintable text.now }
    ensures first { IsTrue result → IsPlainFirst text.now 1 }
{
    begins_printable(text.as_bytes())
}

/// The same for bytes.
#[inline(always)]
fn begins_printable(bytes: &[u8]) -> bool
    requires { 0 < length bytes.now }
    ensures { IsTrue result ↔ BeginsPrintable bytes.now }
{
    is_printable(bytes[0]) && (bytes.len() == 1 || is_printable(bytes[1]))
}

/// Returns the length in bytes of the plain character at the start of a text, if its first byte identifies it and the
/// text then ends or another byte identifies a plain character. Otherwise returns 0. Never inlined, so that printable
/// bytes, which are handled earlier, cost no call.
#[inline(never)]
pub(crate) fn known_len(text: &str) -> usize
    requires { 0 < length text.now }
    ensures { 0 < result → IsPlainFirst text.now result }
{
    let bytes = text.as_bytes();
    let len = plain_len(bytes[0]);
    if len >= bytes.len() {
        return len;
    }
    if plain_len(bytes[len]) > 0 { len } else { 0 }
}

/// Returns how many printable bytes a text begins with, at most `room`, each of them a cluster by itself.
#[inline]
pub(crate) fn run_len(text: &str, room: usize) -> usize
    ensures run { IsPlainRun text.now result }
    ensures room { result ≤ room }
{
    let bytes = text.as_bytes();
    let end = printable_len(bytes, room);
    if end < bytes.len() && plain_len(bytes[end]) == 0 {
        end.saturating_sub(1)
    } else {
        end
    }
}

/// Whether two bytes begin a sign for lines, blocks or shapes, U+2500 to U+25BF.
#[inline]
fn is_sign_start(first: u8, second: u8) -> bool
    ensures { result ≡ is_sign_start first second }
{
    first == 0xe2 && is_within(second as u32, 0x94, 0x96)
}

/// Whether the text begins with such a sign and then ends, or a byte identifies another plain character after it.
#[inline]
pub(crate) fn is_sign_first(text: &str) -> bool
    ensures within { IsTrue result → 3 ≤ length text.now }
    ensures seam { IsTrue result → 3 < length text.now → IsSeam text.now 3 }
{
    let bytes = text.as_bytes();
    if bytes.len() < 3 {
        return false;
    }
    if !is_sign_start(bytes[0], bytes[1]) {
        return false;
    }
    if bytes.len() == 3 {
        return true;
    }
    plain_len(bytes[3]) > 0
}

/// Splits a text into its first character and the rest.
#[inline]
pub(crate) fn split_first(text: &str) -> Option<(char, &str)>
    ensures none { result ≡ None → text.now ≡ [] }
    ensures split { IfSome result (λ (c, rest). text.now ≡ encode_utf8 c ++ rest.now) }
    ensures utf8 { IfSome result (λ (c, rest). IsUtf8 rest.now) }
    ensures shorter { IfSome result (λ (c, rest). length rest.now < length text.now) }
{
    let mut chars = text.chars();
    match chars.next() {
        Some(c) => Some((c, chars.as_str())),
        None => None,
    }
}

/// Whether the text is one plain character. Never inlined, so that printable bytes, which are handled earlier, cost no
/// call.
#[inline(never)]
pub fn is_plain_char(text: &str) -> bool
    ensures { IsTrue result ↔ IsPlainChar text.now }
{
    if is_sign(text) {
        return true;
    }
    match split_first(text) {
        Some((c, rest)) => rest.is_empty() && is_plain(c),
        None => false,
    }
}

/// Returns the character of a text that is a single character above U+00A0.
#[inline]
pub(crate) fn high_char(text: &str) -> Option<char>
    ensures { IfSome result (λ c. (chars text.now ≡ c ∷ []) × (0xA0 < c)) }
{
    match split_first(text) {
        Some((c, rest)) if rest.is_empty() && c as u32 > 0xa0 => Some(c),
        _ => None,
    }
}

/// Whether the text is one ideograph, identified by its length and its first byte.
#[inline(always)]
pub(crate) fn is_ideograph(text: &str) -> bool
    ensures { IsTrue result → IsIdeograph text.now }
{
    let bytes = text.as_bytes();
    if bytes.len() != 3 {
        return false;
    }
    is_within(bytes[0] as u32, 0xe4, 0xe9)
}

/// Whether the text is one letter or sign of two bytes that its first byte identifies.
#[inline(always)]
pub fn is_letter(text: &str) -> bool
    ensures { IsTrue result ↔ IsLetter text.now }
{
    let bytes = text.as_bytes();
    if bytes.len() != 2 {
        return false;
    }
    let first = bytes[0] as u32;
    is_within(first, 0xc3, 0xcb) | is_within(first, 0xce, 0xd1)
}

/// Whether the text is one sign for lines, blocks or shapes, identified by its first two bytes.
#[inline]
pub(crate) fn is_sign(text: &str) -> bool
    ensures { IsTrue result → IsSign text.now }
{
    let bytes = text.as_bytes();
    if bytes.len() != 3 {
        return false;
    }
    is_sign_start(bytes[0], bytes[1])
}
