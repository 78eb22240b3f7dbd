//! The grapheme clusters at the ends of a text.

ghost use Rattle.std.specs.Prelude.{◌≡◌, ◌++◌, take};
ghost use Rattle.std.specs.Str.{IsCharBoundary, IsUtf8};
ghost use Rattle.tui_input.specs.Ends.{IsPrefix, first_of, is_of_kind, last_of, trimmed, without_first, without_last};
ghost use Rattle.tui_input.specs.State.{without_word};

use tui_clusters::is_blank;
use unicode_segmentation::UnicodeSegmentation;

/// Returns a text without its last cluster, and that cluster (empty if the text is empty).
pub(crate) fn split_last(text: &str) -> (&str, &str)
    ensures rest { result.0.now ≡ without_last text.now }
    ensures last { result.1.now ≡ last_of text.now }
    ensures whole { text.now ≡ result.0.now ++ result.1.now }
    ensures utf8 { IsUtf8 result.1.now }
{
    let mut left = text.graphemes(true);
    match left.next_back() {
        Some(last) => (left.as_str(), last),
        None => (text, ""),
    }
}

/// Returns the first cluster of a text (empty if the text is empty), and the text without it.
pub(crate) fn split_first(text: &str) -> (&str, &str)
    ensures first { result.0.now ≡ first_of text.now }
    ensures rest { result.1.now ≡ without_first text.now }
    ensures whole { text.now ≡ result.0.now ++ result.1.now }
    ensures utf8 { IsUtf8 result.1.now }
{
    let mut left = text.graphemes(true);
    match left.next() {
        Some(first) => (first, left.as_str()),
        None => ("", text),
    }
}

/// Returns whether a cluster is white space, if `blank` is set, or whether it isn't, otherwise.
fn is_of_kind(cluster: &str, blank: bool) -> bool
    ensures { result ≡ is_of_kind blank cluster.now }
{
    if blank {
        is_blank(cluster)
    } else {
        !is_blank(cluster)
    }
}

/// Returns a text without the white space at its end, if `blank` is set, or else without the other clusters there.
fn trim_end(text: &str, blank: bool) -> &str
    ensures text { result.now ≡ trimmed (is_of_kind blank) text.now }
    ensures part { IsPrefix result.now text.now }
{
    let mut kept = text;
    let mut left = text.graphemes(true);
    while let Some(cluster) = left.next_back() {
        if !is_of_kind(cluster, blank) {
            return kept;
        }
        kept = left.as_str();
    }
    kept
}

/// Returns the byte at which the last word of a text begins. Only white space follows that word.
pub(crate) fn word_start(text: &str) -> usize
    ensures word { take result text.now ≡ without_word text.now }
    ensures place { IsCharBoundary text.now result }
{
    trim_end(trim_end(text, true), false).len()
}
