//! What a value should be.

/// What a value of a kind is, in words, or by the bounds of a kind that has some.
#[derive(Clone, Copy, Debug, PartialEq, Eq)]
pub enum Wanted<'v> {
    /// Such as `true or false`.
    Words(&'v str),
    /// A whole number from the first to the second.
    Number(u64, u64),
    /// A string whose length in bytes is from the first to the second number.
    Text(usize, usize),
    /// An array whose length is from the first to the second number, and what its values are, such as `strings`.
    Values(usize, usize, &'v str),
}
