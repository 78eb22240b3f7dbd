//! Changing the cells of an area outside a base, one side after another.

ghost use Rattle.std.specs.Prelude.{◌≡◌, [], ◌∷◌, IsOk, OnOk};
ghost use Rattle.tui_cells.specs.Cell.{IsAllocationFree, dim, set_style, write};
ghost use Rattle.tui_cells.specs.Layers.{KeptOutside, Painted, over};
ghost use Rattle.tui_cells.specs.Rect.{intersection_of};
ghost use Rattle.tui_frames.specs.Shadow.{in_shadow};
ghost use Rattle.tui_frames.specs.Sides.{side_of};

use std::alloc::Global;
use tui_cells::{Buffer, Mem, Rect, Style};

/// What is written in a cell: a symbol, with a style.
#[derive(Clone, Copy)]
pub(crate) struct Brush<'s> {
    pub(crate) symbol: &'s str,
    pub(crate) style: Style,
}

/// A side of a base.
#[derive(Clone, Copy)]
pub(crate) enum Side {
    Above,
    Below,
    LeftOf,
    RightOf,
}

fn side_of(base: Rect, side: Side) -> Rect
    ensures { result ≡ side_of base side }
{
    let end = u16::MAX;
    match side {
        Side::Above => Rect {
            x: 0,
            y: 0,
            width: end,
            height: base.y,
        },
        Side::Below => Rect {
            x: 0,
            y: base.bottom(),
            width: end,
            height: end - base.bottom(),
        },
        Side::LeftOf => Rect {
            x: 0,
            y: base.y,
            width: base.x,
            height: base.height,
        },
        Side::RightOf => Rect {
            x: base.right(),
            y: base.y,
            width: end - base.right(),
            height: base.height,
        },
    }
}

/// The part of an area on a side of a base.
fn part(area: Rect, base: Rect, side: Side) -> Rect
    ensures { result ≡ intersection_of area (side_of base side) }
{
    area.intersection(side_of(base, side))
}

/// Dims the cells of an area outside a base.
pub(crate) fn dim_outside(buf: &mut Buffer, area: Rect, base: Rect)
    ensures { Painted (over (in_shadow area base) (dim ∷ [])) buf.old buf.new }
{
    buf.dim(part(area, base, Side::Above));
    buf.dim(part(area, base, Side::Below));
    buf.dim(part(area, base, Side::LeftOf));
    buf.dim(part(area, base, Side::RightOf));
}

/// Sets a style in the cells of an area outside a base.
pub(crate) fn set_style_outside(buf: &mut Buffer, area: Rect, base: Rect, style: Style)
    ensures { Painted (over (in_shadow area base) (set_style style ∷ [])) buf.old buf.new }
{
    buf.set_style(part(area, base, Side::Above), style);
    buf.set_style(part(area, base, Side::Below), style);
    buf.set_style(part(area, base, Side::LeftOf), style);
    buf.set_style(part(area, base, Side::RightOf), style);
}

/// Sets the style and writes the symbol of a brush in the cells of an area outside a base.
pub(crate) fn fill_outside(
    alloc: Global,
    buf: &mut Buffer,
    area: Rect,
    base: Rect,
    brush: Brush<'_>,
) -> Mem<()>
    ensures ok { OnOk result (Painted (over (in_shadow area base) (set_style brush.entry.style ∷ write brush.entry.symbol.now ∷ [])) buf.old buf.new) }
    ensures kept { KeptOutside (in_shadow area base) buf.old buf.new }
    ensures allocation_free { IsAllocationFree brush.entry.symbol.now → IsOk result }
{
    let Brush { symbol, style } = brush;
    buf.fill(alloc, part(area, base, Side::Above), symbol, style)?;
    buf.fill(alloc, part(area, base, Side::Below), symbol, style)?;
    buf.fill(alloc, part(area, base, Side::LeftOf), symbol, style)?;
    buf.fill(alloc, part(area, base, Side::RightOf), symbol, style)
}
