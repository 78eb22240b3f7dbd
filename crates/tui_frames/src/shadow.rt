//! Shadows beside and below an area.

ghost use Rattle.std.specs.Prelude.{◌≡◌, [], ◌∷◌, IsOk, IsTrue, OnOk};
ghost use Rattle.tui_cells.specs.Layers.{KeptOutside, Painted};
ghost use Rattle.tui_cells.specs.Rect.{is_empty};
ghost use Rattle.tui_cells.specs.Symbols.{utf8};
ghost use Rattle.tui_frames.specs.Shadow.{IsAllocationFreeKind, dimmed, kind_data, overlay, shadow_data, shadow_footprint, shadow_layers, shadow_of, symbol};
ghost use Rattle.tui_frames.specs.Drawing.{shadow_drawing};

pub(crate) mod parts;

use crate::shadow::parts::{Brush, dim_outside, fill_outside, set_style_outside};
use std::alloc::Global;
use tui_cells::{Buffer, Mem, Offset, Rect, Style, Styled, Widget, shade};

/// What a shadow does in its cells besides its style.
#[derive(Clone, Copy, Debug, PartialEq, Eq, Hash)]
pub(crate) enum ShadowKind<'a> {
    Overlay,
    Symbol(&'a str),
    Dimmed,
}

/// A shadow of a base. It changes the cells that the base covers when moved by an offset, except those of the base
/// itself. It sets a style in them, and then writes a symbol, dims, or does nothing more.
#[derive(Clone, Copy, Debug, PartialEq, Eq, Hash)]
pub struct Shadow<'a> {
    pub(crate) kind: ShadowKind<'a>,
    pub(crate) style: Style,
    pub(crate) offset: Offset,
}

impl<'a> Shadow<'a> {
    fn of(kind: ShadowKind<'a>) -> Shadow<'a>
        ensures { shadow_data result ≡ shadow_of (kind_data kind.entry) }
    {
        Shadow {
            kind,
            style: Style::new(),
            offset: Offset::new(1, 1),
        }
    }

    /// A shadow that only sets its style, which is empty at first. Like the shadows below, it lies one column to the
    /// right and one row down.
    pub fn overlay() -> Shadow<'a>
        ensures { shadow_data result ≡ shadow_of overlay }
    {
        Shadow::of(ShadowKind::Overlay)
    }

    /// A shadow that writes a symbol. An empty symbol writes spaces.
    pub fn symbol(text: &'a str) -> Shadow<'a>
        ensures { shadow_data result ≡ shadow_of (symbol text.now) }
    {
        Shadow::of(ShadowKind::Symbol(text))
    }

    /// A shadow of full cells.
    pub fn block() -> Shadow<'a>
        ensures { shadow_data result ≡ shadow_of (symbol (utf8 "█")) }
    {
        Shadow::symbol(shade::FULL)
    }

    /// A shadow of light shades.
    pub fn light_shade() -> Shadow<'a>
        ensures { shadow_data result ≡ shadow_of (symbol (utf8 "░")) }
    {
        Shadow::symbol(shade::LIGHT)
    }

    /// A shadow of medium shades.
    pub fn medium_shade() -> Shadow<'a>
        ensures { shadow_data result ≡ shadow_of (symbol (utf8 "▒")) }
    {
        Shadow::symbol(shade::MEDIUM)
    }

    /// A shadow of dark shades.
    pub fn dark_shade() -> Shadow<'a>
        ensures { shadow_data result ≡ shadow_of (symbol (utf8 "▓")) }
    {
        Shadow::symbol(shade::DARK)
    }

    /// A shadow that dims as `Dimmed` does.
    pub fn dimmed() -> Shadow<'a>
        ensures { shadow_data result ≡ shadow_of dimmed }
    {
        Shadow::of(ShadowKind::Dimmed)
    }

    /// Sets the style.
    pub fn style(self, style: Style) -> Shadow<'a>
        ensures { shadow_data result ≡ record (shadow_data self.entry) { style = style } }
    {
        Shadow { style, ..self }
    }

    /// Sets how far the shadow lies from its base: columns to the right and rows down.
    pub fn offset(self, offset: Offset) -> Shadow<'a>
        ensures { shadow_data result ≡ record (shadow_data self.entry) { offset = offset } }
    {
        Shadow { offset, ..self }
    }

    /// Draws the shadow of a base.
    #[tactic(auto, unfolding(crate::specs::Shadow::shadow_layers))]
    pub(crate) fn paint(&self, alloc: Global, buf: &mut Buffer, base: Rect) -> Mem<()>
        ensures ok { OnOk result (Painted (shadow_layers (shadow_data self.now) base) buf.old buf.new) }
        ensures kept { KeptOutside (shadow_footprint (shadow_data self.now) base) buf.old buf.new }
        ensures allocation_free { IsAllocationFreeKind (shadow_data self.now).kind → IsOk result }
    {
        let area = base.offset(self.offset);
        match self.kind {
            ShadowKind::Overlay => {
                set_style_outside(buf, area, base, self.style);
                Ok(())
            }
            ShadowKind::Symbol(symbol) => {
                let brush = Brush {
                    symbol,
                    style: self.style,
                };
                fill_outside(alloc, buf, area, base, brush)
            }
            ShadowKind::Dimmed => {
                set_style_outside(buf, area, base, self.style);
                dim_outside(buf, area, base);
                Ok(())
            }
        }
    }

    fn paint_in(&self, alloc: Global, buf: &mut Buffer, base: Rect) -> Mem<()>
        ensures ok { OnOk result (Painted (shadow_layers (shadow_data self.now) base) buf.old buf.new) }
        ensures kept { KeptOutside (shadow_footprint (shadow_data self.now) base) buf.old buf.new }
        ensures empty { IsTrue (is_empty base) → IsOk result }
        ensures allocation_free { IsAllocationFreeKind (shadow_data self.now).kind → IsOk result }
    {
        if base.is_empty() {
            return Ok(());
        }
        self.paint(alloc, buf, base)
    }
}

impl<'a> Default for Shadow<'a> {
    /// The shadow of `overlay`.
    fn default() -> Shadow<'a>
        ensures { shadow_data result ≡ shadow_of overlay }
    {
        Shadow::overlay()
    }
}

impl<'a> Styled for Shadow<'a> {
    ghost style_of = { λ shadow. shadow.style };

    ghost with_style = { λ shadow style. record shadow { style = style } };

    fn style(&self) -> Style {
        self.style
    }

    fn set_style(self, style: Style) -> Shadow<'a> {
        Shadow { style, ..self }
    }
}

/// Its area is the base.
impl<'a> Widget for Shadow<'a> {
    ghost drawing = { λ shadow. shadow_drawing (shadow_data shadow) };

    fn render(&self, alloc: Global, area: Rect, buf: &mut Buffer) -> Mem<()> {
        self.paint_in(alloc, buf, area.intersection(buf.area()))
    }
}
