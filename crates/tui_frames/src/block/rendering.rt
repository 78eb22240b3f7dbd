//! How a block is drawn.

ghost use Rattle.std.specs.Prelude.{◌≡◌, IsOk, IsTrue, OnOk};
ghost use Rattle.tui_cells.specs.Layers.{KeptOutside, Painted};
ghost use Rattle.tui_cells.specs.Rect.{covers, is_empty};
ghost use Rattle.tui_frames.specs.Block.{block_data};
ghost use Rattle.tui_frames.specs.Drawing.{block_drawing};
ghost use Rattle.tui_frames.specs.Footprint.{block_footprint};
ghost use Rattle.tui_frames.specs.AllocationFree.{IsAllocationFreeBlock, IsAllocationFreeFrame, IsAllocationFreeShadow};
ghost use Rattle.tui_frames.specs.Strokes.{block_layers, frame_layers, shadow_layers_if};

use crate::block::Block;
use crate::title_position::TitlePosition;
use std::alloc::Global;
use tui_cells::{Buffer, Mem, Rect, Widget};

impl<'a> Block<'a> {
    /// Paints the style, the borders and the titles.
    pub(crate) fn paint_frame(&self, alloc: Global, buf: &mut Buffer, clip: Rect) -> Mem<()>
        ensures ok { OnOk result (Painted (frame_layers (block_data self.now) clip) buf.old buf.new) }
        ensures kept { KeptOutside (covers clip) buf.old buf.new }
        ensures allocation_free { IsAllocationFreeFrame (block_data self.now) → IsOk result }
    {
        buf.set_style(clip, self.style);
        self.paint_sides(alloc, buf, clip)?;
        self.paint_corners(alloc, buf, clip)?;
        self.paint_titles(buf, clip, TitlePosition::Top)?;
        self.paint_titles(buf, clip, TitlePosition::Bottom)
    }

    /// Paints the shadow, if there is one.
    fn paint_shadow(&self, alloc: Global, buf: &mut Buffer, clip: Rect) -> Mem<()>
        ensures ok { OnOk result (Painted (shadow_layers_if (block_data self.now).shadow clip) buf.old buf.new) }
        ensures kept { KeptOutside (block_footprint (block_data self.now) clip) buf.old buf.new }
        ensures allocation_free { IsAllocationFreeShadow (block_data self.now).shadow → IsOk result }
    {
        match &self.shadow {
            None => Ok(()),
            Some(shadow) => shadow.paint(alloc, buf, clip),
        }
    }

    /// Draws the block in a clip.
    pub(crate) fn paint_in(&self, alloc: Global, buf: &mut Buffer, clip: Rect) -> Mem<()>
        ensures ok { OnOk result (Painted (block_layers (block_data self.now) clip) buf.old buf.new) }
        ensures kept { KeptOutside (block_footprint (block_data self.now) clip) buf.old buf.new }
        ensures empty { IsTrue (is_empty clip) → IsOk result }
        ensures allocation_free { IsAllocationFreeBlock (block_data self.now) → IsOk result }
    {
        if clip.is_empty() {
            return Ok(());
        }
        self.paint_frame(alloc, buf, clip)?;
        self.paint_shadow(alloc, buf, clip)
    }
}

impl<'a> Widget for Block<'a> {
    ghost drawing = { λ block. block_drawing (block_data block) };

    fn render(&self, alloc: Global, area: Rect, buf: &mut Buffer) -> Mem<()> {
        self.paint_in(alloc, buf, area.intersection(buf.area()))
    }
}
