//! Where lines end.

/// Where a line ends when it has no room for a grapheme.
#[derive(Clone, Copy, Debug, PartialEq, Eq)]
pub enum LineEnd {
    /// Before the word that the grapheme belongs to.
    BeforeWord,
    /// Before the grapheme, which is inside a word or begins one. No other word has ended in the line.
    WithinWord,
    /// After the grapheme, which is whitespace. It belongs to no line.
    AfterBlank,
}
