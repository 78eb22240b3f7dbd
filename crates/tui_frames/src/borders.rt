//! Sets of sides.

ghost use Rattle.std.specs.Prelude.{◌≡◌, ◌+◌, ◌==◌, not, nat_le, None, Some, ⊤, [], ◌∷◌, bit_and, bit_or, codes, if◌then◌else◌};
ghost use Rattle.tui_frames.specs.Borders.{borders_of, both_borders, bottom, has, left, right, sides_text, top};

use bitflags::{Flag, Flags};
use std::fmt;
use std::ops::BitOr;

/// A set of sides, one bit each. `Debug` writes `NONE`, `ALL`, or the names of the sides that are set, in the order
/// TOP, RIGHT, BOTTOM, LEFT, with ` | ` between two.
#[derive(Clone, Copy, PartialEq, Eq, Hash)]
pub struct Borders {
    bits: u8,
}

impl Borders {
    /// No side.
    pub const NONE: Borders = Borders { bits: 0 };

    /// The side above.
    pub const TOP: Borders = Borders { bits: 1 };

    /// The side at the right.
    pub const RIGHT: Borders = Borders { bits: 2 };

    /// The side below.
    pub const BOTTOM: Borders = Borders { bits: 4 };

    /// The side at the left.
    pub const LEFT: Borders = Borders { bits: 8 };

    /// All four sides.
    pub const ALL: Borders = Borders { bits: 15 };

    /// No side.
    pub fn empty() -> Borders
        ensures { result ≡ borders_of 0 }
    {
        Borders::NONE
    }

    /// All four sides.
    pub fn all() -> Borders
        ensures { result ≡ borders_of 15 }
    {
        Borders::ALL
    }

    /// The bits of the set, as the constants number them.
    pub fn bits(&self) -> u8
        ensures { result ≡ self.now.bits }
    {
        self.bits
    }

    /// Returns the set of these bits, or `None` exactly if they are above 15.
    pub fn from_bits(bits: u8) -> Option<Borders>
        ensures { result ≡ (if nat_le bits 15 then Some (borders_of bits) else None) }
    {
        if bits <= 15 {
            Some(Borders { bits })
        } else {
            None
        }
    }

    /// Whether all sides of `other` are in the set.
    pub fn contains(&self, other: Borders) -> bool
        ensures { result ≡ has self.now other.bits }
    {
        self.bits & other.bits == other.bits
    }

    /// Whether a side of `other` is in the set.
    pub fn intersects(&self, other: Borders) -> bool
        ensures { result ≡ not (bit_and self.now.bits other.bits == 0) }
    {
        self.bits & other.bits != 0
    }

    /// The sides of both sets.
    pub fn union(self, other: Borders) -> Borders
        ensures { result ≡ both_borders self other }
    {
        Borders {
            bits: self.bits | other.bits,
        }
    }

    /// Whether no side is in the set.
    pub fn is_empty(&self) -> bool
        ensures { result ≡ (self.now.bits == 0) }
    {
        self.bits == 0
    }

    /// Whether all four sides are in the set.
    pub fn is_all(&self) -> bool
        ensures { result ≡ has self.now 15 }
    {
        self.contains(Borders::ALL)
    }
}

impl Default for Borders {
    /// No side.
    fn default() -> Borders
        ensures { result ≡ borders_of 0 }
    {
        Borders::NONE
    }
}

/// The union.
impl BitOr for Borders {
    type Output = Borders;

    ghost bitor_gives = { λ a b both. both ≡ both_borders a b };

    fn bitor(self, other: Borders) -> Borders {
        self.union(other)
    }
}

impl fmt::Debug for Borders {
    ghost use Rattle.std.specs.Prelude.{Some};
    ghost use Rattle.tui_frames.specs.Borders.{debug_text};

    ghost debug_output = { λ borders. Some (debug_text borders) };

    fn fmt<W: fmt::Write>(&self, f: &mut fmt::Formatter<W>) -> fmt::Result {
        f.write_str(sides_text(
            self.contains(Borders::TOP),
            self.contains(Borders::RIGHT),
            self.contains(Borders::BOTTOM),
            self.contains(Borders::LEFT),
        ))
    }
}

/// Returns how a set is written, given which sides are set.
fn sides_text(top: bool, right: bool, bottom: bool, left: bool) -> &'static str
    ensures { result.now ≡ sides_text top right bottom left }
{
    match (top, right, bottom, left) {
        (false, false, false, false) => "NONE",
        (false, false, false, true) => "LEFT",
        (false, false, true, false) => "BOTTOM",
        (false, false, true, true) => "BOTTOM | LEFT",
        (false, true, false, false) => "RIGHT",
        (false, true, false, true) => "RIGHT | LEFT",
        (false, true, true, false) => "RIGHT | BOTTOM",
        (false, true, true, true) => "RIGHT | BOTTOM | LEFT",
        (true, false, false, false) => "TOP",
        (true, false, false, true) => "TOP | LEFT",
        (true, false, true, false) => "TOP | BOTTOM",
        (true, false, true, true) => "TOP | BOTTOM | LEFT",
        (true, true, false, false) => "TOP | RIGHT",
        (true, true, false, true) => "TOP | RIGHT | LEFT",
        (true, true, true, false) => "TOP | RIGHT | BOTTOM",
        (true, true, true, true) => "ALL",
    }
}

/// Expands to the union of the named sides, as in `border!(TOP, LEFT)`. `border!()` is no side. Use it in function
/// bodies.
#[macro_export]
macro_rules! border {
    () => { $crate::Borders::NONE };
    ($first:ident $(, $next:ident)* $(,)?) => { $crate::Borders::$first$(.union($crate::Borders::$next))* };
}

/// Uses the macro for no side, one, three and all four.
fn written_by_macro() -> [Borders; 4]
    ensures { result ≡ borders_of 0 ∷ borders_of right ∷ borders_of (top + right + left) ∷ borders_of 15 ∷ [] }
{
    [
        border!(),
        border!(RIGHT),
        border!(TOP, RIGHT, LEFT),
        border!(TOP, RIGHT, BOTTOM, LEFT),
    ]
}

const _: () = prove!(Borders::NONE.bits == 0);

const _: () = prove!(Borders::TOP.bits == 1);

const _: () = prove!(Borders::RIGHT.bits == 2);

const _: () = prove!(Borders::BOTTOM.bits == 4);

const _: () = prove!(Borders::LEFT.bits == 8);

const _: () = prove!(Borders::ALL.bits == 15);

const FLAGS: &[Flag<Borders>] = &[
    Flag {
        name: "TOP",
        value: Borders::TOP,
    },
    Flag {
        name: "RIGHT",
        value: Borders::RIGHT,
    },
    Flag {
        name: "BOTTOM",
        value: Borders::BOTTOM,
    },
    Flag {
        name: "LEFT",
        value: Borders::LEFT,
    },
];

impl Flags for Borders {
    type Bits = u8;

    ghost exact = { ⊤ };

    ghost table = { (codes "TOP", 1) ∷ (codes "RIGHT", 2) ∷ (codes "BOTTOM", 4) ∷ (codes "LEFT", 8) ∷ [] };

    ghost set_of = { λ borders. borders.bits };

    fn flags<'a>() -> &'a [Flag<Borders>] {
        FLAGS
    }

    fn bits(&self) -> u8 {
        self.bits
    }

    fn from_bits_retain(bits: u8) -> Borders {
        Borders { bits }
    }
}
