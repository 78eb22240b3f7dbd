//! Values that `==` compares exactly, and whose clones are equal to them.

ghost use Rattle.std.proofs.Common.{rules};
ghost use Rattle.std.specs.Prelude.{◌≡◌, true};
ghost use Rattle.tui_cells.specs.Same.{same_attributes, same_style};

use crate::attributes::Attributes;
use crate::color::Color;
use crate::error::ParseError;
use crate::memory::NoMemory;
use crate::merge_strategy::MergeStrategy;
use crate::modifier::Modifier;
use crate::offset::Offset;
use crate::position::Position;
use crate::rect::Rect;
use crate::size::Size;
use crate::style::Style;
use crate::symbols::{bar, border, line, scrollbar};

/// A `Copy` type without strings and lists. `==` returns true only for equal values, and a clone is equal to its
/// original.
pub trait Plain: Copy + Eq {
    ghost same: { (a b : Self) → Self.eq a b ≡ true → a ≡ b };

    ghost cloned: { (a b : Self) → Self.is_clone a b → b ≡ a };
}

/// A `Copy` type that borrows strings, or that `==` doesn't compare. A clone is equal to its original.
pub trait Copied: Copy {
    ghost cloned: { (a b : Self) → Self.is_clone a b → b ≡ a };
}

impl Plain for Attributes {
    ghost same = { same_attributes };

    ghost cloned = { Prim.search rules };
}

impl Plain for Color {
    ghost same = { Prim.search rules };

    ghost cloned = { Prim.search rules };
}

impl Plain for MergeStrategy {
    ghost same = { Prim.search rules };

    ghost cloned = { Prim.search rules };
}

impl Plain for Modifier {
    ghost same = { Prim.search rules };

    ghost cloned = { Prim.search rules };
}

impl Plain for NoMemory {
    ghost same = { Prim.search rules };

    ghost cloned = { Prim.search rules };
}

impl Plain for Offset {
    ghost same = { Prim.search rules };

    ghost cloned = { Prim.search rules };
}

impl Plain for ParseError {
    ghost same = { Prim.search rules };

    ghost cloned = { Prim.search rules };
}

impl Plain for Position {
    ghost same = { Prim.search rules };

    ghost cloned = { Prim.search rules };
}

impl Plain for Rect {
    ghost same = { Prim.search rules };

    ghost cloned = { Prim.search rules };
}

impl Plain for Size {
    ghost same = { Prim.search rules };

    ghost cloned = { Prim.search rules };
}

impl Plain for Style {
    ghost same = { same_style };

    ghost cloned = { Prim.search rules };
}

impl<'a> Copied for bar::Set<'a> {
    ghost cloned = { Prim.search rules };
}

impl<'a> Copied for border::Set<'a> {
    ghost cloned = { Prim.search rules };
}

impl<'a> Copied for line::Set<'a> {
    ghost cloned = { Prim.search rules };
}

impl<'a> Copied for scrollbar::Set<'a> {
    ghost cloned = { Prim.search rules };
}
