//! Why an input is rejected.

use crate::field::PagerField;

/// A field that is missing or of the wrong kind: of the input, or of the entry or the key with this number, from 0.
#[derive(Clone, Copy, Debug, PartialEq, Eq)]
pub struct BadInput {
    pub at: Option<usize>,
    pub field: PagerField,
}
