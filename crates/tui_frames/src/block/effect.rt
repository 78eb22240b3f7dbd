//! Blocks whose shadow has an effect given by the caller.

ghost use Rattle.std.specs.Prelude.{◌≡◌, IsOk, IsTrue, OnOk};
ghost use Rattle.tui_cells.specs.Layers.{KeptOutside};
ghost use Rattle.tui_cells.specs.Rect.{intersection_of, is_empty};
ghost use Rattle.tui_frames.specs.Block.{block_data};
ghost use Rattle.tui_frames.specs.Effect.{ShowsEffect, effect_shadow};
ghost use Rattle.tui_frames.specs.AllocationFree.{IsAllocationFreeFrame};
ghost use Rattle.tui_frames.specs.Shadow.{shadow_data, shadow_footprint};

use crate::block::Block;
use crate::effect::CellEffect;
use crate::shadow::Shadow;
use crate::shadow::parts::set_style_outside;
use std::alloc::Global;
use tui_cells::{Buffer, Mem, Rect};

impl<'a> Block<'a> {
    /// Draws as `render` does, with an effect in place of what the shadow does besides its style. The effect is given
    /// two areas: the clip, and the clip moved by the shadow's offset, as far as it lies in the buffer. It changes only
    /// cells of the moved clip that are outside the clip. Without a shadow the offset is one column to the right and
    /// one row down, and no style is set. On `NoMemory` the buffer's area and all cells outside these two areas are
    /// unchanged. If the clip is empty, nothing changes and the result is `Ok`.
    pub fn render_with_effect<E: CellEffect>(
        &self,
        alloc: Global,
        area: Rect,
        buf: &mut Buffer,
        effect: &E,
    ) -> Mem<()>
        ensures ok { OnOk result (ShowsEffect (E.postcondition effect.now) (block_data self.now) (intersection_of area buf.old.area) buf.old buf.new) }
        ensures kept { KeptOutside (shadow_footprint (effect_shadow (block_data self.now)) (intersection_of area buf.old.area)) buf.old buf.new }
        ensures empty { IsTrue (is_empty (intersection_of area buf.old.area)) → IsOk result × (buf.new ≡ buf.old) }
        ensures allocation_free { IsAllocationFreeFrame (block_data self.now) → E.allocation_free effect.now → IsOk result }
    {
        let clip = area.intersection(buf.area());
        self.paint_effect(alloc, buf, clip, effect)
    }

    fn paint_effect<E: CellEffect>(
        &self,
        alloc: Global,
        buf: &mut Buffer,
        clip: Rect,
        effect: &E,
    ) -> Mem<()>
        ensures ok { OnOk result (ShowsEffect (E.postcondition effect.now) (block_data self.now) clip buf.old buf.new) }
        ensures kept { KeptOutside (shadow_footprint (effect_shadow (block_data self.now)) clip) buf.old buf.new }
        ensures empty { IsTrue (is_empty clip) → IsOk result × (buf.new ≡ buf.old) }
        ensures allocation_free { IsAllocationFreeFrame (block_data self.now) → E.allocation_free effect.now → IsOk result }
    {
        if clip.is_empty() {
            return Ok(());
        }
        let shadow = self.effect_shadow();
        let shadow_area = clip.offset(shadow.offset).intersection(buf.area());
        self.paint_frame(alloc, buf, clip)?;
        set_style_outside(buf, shadow_area, clip, shadow.style);
        effect.apply(shadow_area, clip, buf)
    }

    fn effect_shadow(&self) -> Shadow<'a>
        ensures { shadow_data result ≡ effect_shadow (block_data self.now) }
    {
        match self.shadow {
            Some(shadow) => shadow,
            None => Shadow::overlay(),
        }
    }
}
