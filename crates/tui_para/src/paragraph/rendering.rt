//! How a paragraph is drawn.

ghost use Rattle.std.specs.Prelude.{◌<◌, IsOk, IsTrue, OnOk};
ghost use Rattle.tui_cells.specs.Layers.{KeptOutside, Painted};
ghost use Rattle.tui_cells.specs.Rect.{covers, is_empty};
ghost use Rattle.tui_para.specs.Drawing.{paragraph_drawing};
ghost use Rattle.tui_para.specs.Paragraph.{paragraph_data};
ghost use Rattle.tui_frames.specs.Footprint.{footprint_if};
ghost use Rattle.tui_para.specs.Rendering.{content_layers, paragraph_layers, scrolled_layers, under_layers};

use crate::painting::rows::paint_lines;
use crate::paragraph::Paragraph;
use crate::text_lines::TextLines;
use crate::truncator::LineTruncator;
use crate::wrapper::WordWrapper;
use std::alloc::Global;
use tui_cells::{Buffer, Mem, Rect, Widget};
use tui_frames::{BlockExt, paint_if_some};

impl<'a> Paragraph<'a> {
    /// Paints the lines from the scroll line on, one in each row.
    fn paint_text(&self, alloc: Global, buf: &mut Buffer, clip: Rect) -> Mem<()>
        requires { 0 < clip.width }
        ensures ok { OnOk result (Painted (scrolled_layers (paragraph_data self.now) clip) buf.old buf.new) }
        ensures kept { KeptOutside (covers clip) buf.old buf.new }
    {
        match self.wrap {
            Some(wrap) => {
                let lines = TextLines::new(&self.text, self.alignment);
                let mut wrapper = WordWrapper::with_wrap(alloc, lines, clip.width, wrap);
                paint_lines(buf, clip, &mut wrapper, self.scroll.y)
            }
            None => {
                // Each text line is one line, so those above the scroll line need not be read.
                let lines = TextLines::after(&self.text, self.alignment, self.scroll.y);
                let mut truncator = LineTruncator::new(alloc, lines, clip.width);
                truncator.set_horizontal_offset(self.scroll.x);
                paint_lines(buf, clip, &mut truncator, 0)
            }
        }
    }

    /// Sets the style on an area, and paints the lines in it.
    #[tactic(auto, unfolding(crate::specs::Rendering::content_layers))]
    fn paint_content(&self, alloc: Global, buf: &mut Buffer, area: Rect) -> Mem<()>
        ensures ok { OnOk result (Painted (content_layers (paragraph_data self.now) area) buf.old buf.new) }
        ensures kept { KeptOutside (covers area) buf.old buf.new }
        ensures empty { IsTrue (is_empty area) → IsOk result }
    {
        if area.is_empty() {
            return Ok(());
        }
        buf.set_style(area, self.style);
        self.paint_text(alloc, buf, area)
    }

    /// Paints what is under the text: if there is a block, the style on the clip, and then the block.
    fn paint_under(&self, alloc: Global, buf: &mut Buffer, clip: Rect) -> Mem<()>
        ensures ok { OnOk result (Painted (under_layers (paragraph_data self.now).block self.now.style clip) buf.old buf.new) }
        ensures kept { KeptOutside (footprint_if (paragraph_data self.now).block clip) buf.old buf.new }
    {
        if self.block.is_some() {
            buf.set_style(clip, self.style);
        }
        paint_if_some(alloc, buf, clip, &self.block)
    }

    fn paint_in(&self, alloc: Global, buf: &mut Buffer, clip: Rect) -> Mem<()>
        ensures ok { OnOk result (Painted (paragraph_layers (paragraph_data self.now) clip) buf.old buf.new) }
        ensures kept { KeptOutside (footprint_if (paragraph_data self.now).block clip) buf.old buf.new }
        ensures empty { IsTrue (is_empty clip) → IsOk result }
    {
        if clip.is_empty() {
            return Ok(());
        }
        self.paint_under(alloc, buf, clip)?;
        self.paint_content(alloc, buf, self.block.inner_if_some(clip))
    }
}

impl<'a> Widget for Paragraph<'a> {
    ghost drawing = { λ paragraph. paragraph_drawing (paragraph_data paragraph) };

    #[tactic(auto, using(crate::proofs::ShowingLines::drawn_shows))]
    fn render(&self, alloc: Global, area: Rect, buf: &mut Buffer) -> Mem<()> {
        let clip = area.intersection(buf.area());
        self.paint_in(alloc, buf, clip)
    }
}
