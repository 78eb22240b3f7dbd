//! Laws of the clusters of all texts.

ghost use Rattle.std.specs.List.{concat};
ghost use Rattle.std.specs.Prelude.{◌≡◌, ℕ, List, drop, true};
ghost use Rattle.std.specs.Str.{IsUtf8};
ghost use Rattle.unicode_segmentation.specs.Grapheme.{graphemes};

/// The text that is left after some clusters has exactly the remaining clusters.
pub fn cluster_suffix_law()
    ensures { (text : List ℕ) (k : ℕ) → IsUtf8 text
        → graphemes true (concat (drop k (graphemes true text))) ≡ drop k (graphemes true text) }
{}
