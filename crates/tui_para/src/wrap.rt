//! How a paragraph is wrapped.

ghost use Rattle.std.specs.Prelude.{◌≡◌, false};

/// How a paragraph is wrapped.
#[derive(Clone, Copy, Debug, PartialEq, Eq, Hash)]
pub struct Wrap {
    /// Whether whitespace at the beginning of each line is dropped.
    pub trim: bool,
    /// Whether a line may also end after a `-` that is inside a word, directly between two graphemes that aren't `-`.
    pub hyphens: bool,
}

impl Default for Wrap {
    /// Without `trim`, and without breaks after hyphens.
    fn default() -> Wrap
        ensures { result ≡ record { trim = false; hyphens = false } }
    {
        Wrap {
            trim: false,
            hyphens: false,
        }
    }
}
