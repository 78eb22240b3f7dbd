//! Free columns and rows inside a border.

ghost use Rattle.std.specs.Prelude.{◌≡◌, ◌*◌, min};
ghost use Rattle.tui_cells.specs.Rect.{farthest_edge};
ghost use Rattle.tui_frames.specs.Padding.{no_padding, padding};

/// The columns and rows that are left free inside a border.
#[derive(Clone, Copy, Debug, PartialEq, Eq, PartialOrd, Ord, Hash)]
pub struct Padding {
    pub left: u16,
    pub right: u16,
    pub top: u16,
    pub bottom: u16,
}

impl Padding {
    /// Nothing is left free.
    pub const ZERO: Padding = Padding {
        left: 0,
        right: 0,
        top: 0,
        bottom: 0,
    };

    /// Columns at the left and at the right, rows at the top and at the bottom.
    pub fn new(left: u16, right: u16, top: u16, bottom: u16) -> Padding
        ensures { result ≡ padding left right top bottom }
    {
        Padding {
            left,
            right,
            top,
            bottom,
        }
    }

    /// Nothing is left free.
    pub fn zero() -> Padding
        ensures { result ≡ no_padding }
    {
        Padding::ZERO
    }

    /// `value` columns at the left and at the right each.
    pub fn horizontal(value: u16) -> Padding
        ensures { result ≡ padding value value 0 0 }
    {
        Padding::new(value, value, 0, 0)
    }

    /// `value` rows at the top and at the bottom each.
    pub fn vertical(value: u16) -> Padding
        ensures { result ≡ padding 0 0 value value }
    {
        Padding::new(0, 0, value, value)
    }

    /// `value` columns and rows on each side.
    pub fn uniform(value: u16) -> Padding
        ensures { result ≡ padding value value value value }
    {
        Padding::new(value, value, value, value)
    }

    /// `value` rows at the top and at the bottom, and twice as many columns at the left and at the right, at most
    /// 65535. A cell is about twice as high as it is wide.
    pub fn proportional(value: u16) -> Padding
        ensures { result ≡ padding (min (2 * value) farthest_edge) (min (2 * value) farthest_edge) value value }
    {
        let twice = value.saturating_mul(2);
        Padding::new(twice, twice, value, value)
    }

    /// `x` columns at the left and at the right, `y` rows at the top and at the bottom.
    pub fn symmetric(x: u16, y: u16) -> Padding
        ensures { result ≡ padding x x y y }
    {
        Padding::new(x, x, y, y)
    }

    /// `value` columns at the left.
    pub fn left(value: u16) -> Padding
        ensures { result ≡ record no_padding { left = value } }
    {
        Padding::new(value, 0, 0, 0)
    }

    /// `value` columns at the right.
    pub fn right(value: u16) -> Padding
        ensures { result ≡ record no_padding { right = value } }
    {
        Padding::new(0, value, 0, 0)
    }

    /// `value` rows at the top.
    pub fn top(value: u16) -> Padding
        ensures { result ≡ record no_padding { top = value } }
    {
        Padding::new(0, 0, value, 0)
    }

    /// `value` rows at the bottom.
    pub fn bottom(value: u16) -> Padding
        ensures { result ≡ record no_padding { bottom = value } }
    {
        Padding::new(0, 0, 0, value)
    }
}

impl Default for Padding {
    /// Nothing is left free.
    fn default() -> Padding
        ensures { result ≡ no_padding }
    {
        Padding::ZERO
    }
}

/// The same on each side.
impl From<u16> for Padding {
    ghost from_gives = { λ value all. all ≡ padding value value value value };

    fn from(value: u16) -> Padding {
        Padding::uniform(value)
    }
}

const _: () = prove!(Padding::ZERO.left == 0);

const _: () = prove!(Padding::ZERO.right == 0);

const _: () = prove!(Padding::ZERO.top == 0);

const _: () = prove!(Padding::ZERO.bottom == 0);
