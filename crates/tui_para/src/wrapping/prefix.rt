//! Prefixes of lists of graphemes.

/// The graphemes at the beginning of a list: how many they are, and how many columns of a width they leave.
#[derive(Clone, Copy, Debug)]
pub(crate) struct Prefix {
    pub len: usize,
    pub room: u16,
}
