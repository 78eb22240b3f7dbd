//! Distances between positions.

ghost use Rattle.std.specs.Prelude.{◌≡◌};

/// A distance in columns and rows: to the right and down, or to the left and up if negative.
#[derive(Clone, Copy, Debug, PartialEq, Eq, Hash)]
pub struct Offset {
    pub x: i32,
    pub y: i32,
}

impl Offset {
    /// The offset of `x` columns and `y` rows.
    pub fn new(x: i32, y: i32) -> Offset
        ensures { result ≡ record { x = x; y = y } }
    {
        Offset { x, y }
    }
}
