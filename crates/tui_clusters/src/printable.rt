//! Printable ASCII characters, which need no tables.

ghost use Rattle.std.specs.Prelude.{◌≡◌, ◌≤◌, ◌&&◌, [], ◌∷◌, ℕ, IfSome, None, false, length, nat_lt, slice_index, take, true};
ghost use Rattle.std.specs.List.{list_all};
ghost use Rattle.tui_clusters.specs.Printable.{is_printable};

/// Whether the byte is one of the characters U+0020 to U+007E.
#[inline]
pub fn is_printable(byte: u8) -> bool
    ensures { result ≡ is_printable byte }
{
    32 <= byte && byte <= 126
}

/// Whether a text begins with one of them.
#[inline(always)]
pub(crate) fn starts_printable(text: &str) -> bool
    ensures { result ≡ (nat_lt 0 (length text.now) && is_printable (slice_index text.now 0)) }
{
    let bytes = text.as_bytes();
    !bytes.is_empty() && is_printable(bytes[0])
}

/// Returns how many of them the bytes begin with, counted up to `most`.
#[inline]
pub(crate) fn printable_len(bytes: &[u8], most: usize) -> usize
    ensures within { (result ≤ length bytes.now) × (result ≤ most) }
    ensures printable { list_all is_printable (take result bytes.now) ≡ true }
{
    let end = bytes.len().min(most);
    'bytes: for i in 0..end {
        if !is_printable(bytes[i]) {
            return i;
        }
    }
    end
}

/// Returns the byte of a text that is a single character from U+0020 to U+007E, which is one column wide. Returns
/// `None` for any other text.
#[inline]
pub fn printable_byte(text: &str) -> Option<u8>
    ensures some { IfSome result (λ byte. (text.now ≡ byte ∷ []) × (32 ≤ byte) × (byte ≤ 126)) }
    ensures none { result ≡ None → (byte : ℕ) → text.now ≡ byte ∷ [] → is_printable byte ≡ false }
{
    match text.as_bytes() {
        [byte] if is_printable(*byte) => Some(*byte),
        _ => None,
    }
}
