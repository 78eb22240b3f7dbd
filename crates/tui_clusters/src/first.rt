//! The first cluster of a text.

ghost use Rattle.std.specs.Prelude.{◌≡◌, ◌<◌, ◌++◌, ◌∷◌, [], length, true, IfSome, None};
ghost use Rattle.std.specs.Str.{IsUtf8};
ghost use Rattle.unicode_segmentation.specs.Grapheme.{graphemes};

use crate::plain::is_printable_first;
use unicode_segmentation::UnicodeSegmentation;

/// Splits a text into its first cluster and the rest. Returns `None` if the text is empty. Between two printable ASCII
/// characters there is always a boundary, so such a character needs no tables.
#[inline]
pub fn first_cluster(text: &str) -> Option<(&str, &str)>
    ensures none { result ≡ None → (graphemes true text.now ≡ []) × (text.now ≡ []) }
    ensures clusters { IfSome result (λ (first, rest). graphemes true text.now ≡ first.now ∷ graphemes true rest.now) }
    ensures whole { IfSome result (λ (first, rest). text.now ≡ first.now ++ rest.now) }
    ensures utf8 { IfSome result (λ (first, rest). IsUtf8 rest.now) }
    ensures shorter { IfSome result (λ (first, rest). length rest.now < length text.now) }
{
    if !text.is_empty() && is_printable_first(text) {
        return Some(text.split_at(1));
    }
    looked_up_cluster(text)
}

// Never inlined, so that printable bytes cost no call.
#[inline(never)]
fn looked_up_cluster(text: &str) -> Option<(&str, &str)>
    ensures none { result ≡ None → (graphemes true text.now ≡ []) × (text.now ≡ []) }
    ensures clusters { IfSome result (λ (first, rest). graphemes true text.now ≡ first.now ∷ graphemes true rest.now) }
    ensures whole { IfSome result (λ (first, rest). text.now ≡ first.now ++ rest.now) }
    ensures utf8 { IfSome result (λ (first, rest). IsUtf8 rest.now) }
    ensures shorter { IfSome result (λ (first, rest). length rest.now < length text.now) }
{
    let mut clusters = text.graphemes(true);
    let first = clusters.next()?;
    Some((first, clusters.as_str()))
}
