//! Why a form is rejected.

use crate::key::FormKey;

/// The key whose value is missing or not valid. With `at` it is a key of the field of that index, from 0; otherwise it
/// is a key of the form itself.
#[derive(Clone, Copy, Debug, PartialEq, Eq)]
pub struct BadForm {
    pub at: Option<usize>,
    pub key: FormKey,
}
