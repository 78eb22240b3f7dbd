//! Which cells of a row are sent.

/// Which of the visible cells are sent.
#[derive(Clone, Copy)]
pub enum Wanted {
    /// Those that did not show so before.
    Changed,
    /// Those with symbols of uncertain width.
    UncertainWidth,
    /// Those with symbols of known width.
    KnownWidth,
}
