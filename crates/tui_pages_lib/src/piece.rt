//! Pieces of records.

/// The part of a record that is on one page: the lines from `from` to the one before `to`, counted from 0, of the
/// record at index `place`.
#[derive(Clone, Copy, Debug, PartialEq, Eq, Hash)]
pub struct Piece {
    pub place: usize,
    pub from: usize,
    pub to: usize,
}
