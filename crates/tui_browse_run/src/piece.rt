//! Pieces of a text.

/// A piece of a text: the number of its first line, from 1, and its text.
#[derive(Clone, Copy, Debug, PartialEq, Eq)]
pub struct TextPiece<'t> {
    pub line: usize,
    pub body: &'t str,
}
