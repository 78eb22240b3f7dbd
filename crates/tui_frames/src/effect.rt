//! Effects in the cells of a shadow.

ghost use Rattle.std.specs.Prelude.{⊤, [], ◌∷◌, IsOk, OnOk};
ghost use Rattle.tui_cells.specs.Buffer.{Screen};
ghost use Rattle.tui_cells.specs.Cell.{dim};
ghost use Rattle.tui_cells.specs.Layers.{KeptOutside, Painted, over};
ghost use Rattle.tui_cells.specs.declared.rect.Rect.{Rect};
ghost use Rattle.tui_frames.specs.Shadow.{in_shadow};

use crate::shadow::parts::dim_outside;
use tui_cells::{Buffer, Mem, Rect};

/// An effect in the cells of a shadow besides its style, for `Block::render_with_effect`.
pub trait CellEffect {
    /// How the buffer differs from the old one after `Ok`, given a shadow area and a base area.
    ghost postcondition: { Self → Rect → Rect → Screen → Screen → Type 0 };

    /// That it does not allocate.
    ghost allocation_free: { Self → Type 0 } = { λ _. ⊥ };

    /// Changes cells of the shadow area that are outside the base area and in the buffer, and no others, even if it
    /// fails with `NoMemory`.
    fn apply(&self, shadow_area: Rect, base_area: Rect, buf: &mut Buffer) -> Mem<()>
        ensures ok { OnOk result (postcondition self.now shadow_area base_area buf.old buf.new) }
        ensures kept { KeptOutside (in_shadow shadow_area base_area) buf.old buf.new }
        ensures allocation_free { allocation_free self.now → IsOk result };
}

/// Dims cells. Each gets DIM, and a background of half the red, green and blue, rounded down. A background that is not
/// given by these becomes Black. It does not allocate, so the result is always `Ok`.
#[derive(Clone, Copy, Debug, Default, PartialEq, Eq, Hash)]
pub struct Dimmed;

impl Dimmed {
    /// The effect that dims.
    pub fn new() -> Dimmed {
        Dimmed
    }
}

impl CellEffect for Dimmed {
    ghost postcondition = { λ _ area base old new. Painted (over (in_shadow area base) (dim ∷ [])) old new };

    ghost allocation_free = { λ _. ⊤ };

    fn apply(&self, shadow_area: Rect, base_area: Rect, buf: &mut Buffer) -> Mem<()> {
        dim_outside(buf, shadow_area, base_area);
        Ok(())
    }
}
