//! Sizes of a pager's screen.

ghost use Rattle.std.specs.Prelude.{◌≡◌, ◌⊎◌, ◌<◌, ◌≤◌, MatchOption};

/// The smallest size.
const MIN_WIDTH: u16 = 12;

const MIN_HEIGHT: u16 = 5;

/// The columns and rows of a screen that is large enough for a pager: at least 12 columns and 5 rows.
#[derive(Clone, Copy, Debug, PartialEq, Eq)]
pub struct PagerSize {
    pub width: u16,
    pub height: u16,
    pub ghost wide: { 12 ≤ width },
    pub ghost high: { 5 ≤ height },
}

impl PagerSize {
    /// Returns this size. Returns `None` if and only if the width is below 12 or the height below 5.
    pub fn new(width: u16, height: u16) -> Option<PagerSize>
        ensures { MatchOption result ((width < 12) ⊎ (height < 5)) (λ size. (size.width ≡ width) × (size.height ≡ height)) }
    {
        if width < MIN_WIDTH || height < MIN_HEIGHT {
            return None;
        }
        Some(PagerSize { width, height })
    }
}
