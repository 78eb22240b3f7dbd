//! Why a scene is rejected.

use crate::field::Field;

/// A field that is missing though required, or whose value is not of its kind: of the scene, or of the item with this
/// number, from 0.
#[derive(Clone, Copy, Debug, PartialEq, Eq)]
pub struct BadField {
    pub item: Option<usize>,
    pub field: Field,
}
