//! Blocks that a widget may have.

ghost use Rattle.std.specs.Prelude.{◌≡◌, IfOk, IsOk, OnOk, option_map, true};
ghost use Rattle.tui_cells.specs.Layers.{KeptOutside, Painted};
ghost use Rattle.tui_cells.specs.declared.rect.Rect.{Rect};
ghost use Rattle.tui_frames.specs.Block.{block_data};
ghost use Rattle.tui_frames.specs.Footprint.{footprint_if};
ghost use Rattle.tui_frames.specs.InBlock.{IsAllocationFreeIfBlock, beside, block_layers_if, frame_layers, inner_of};
ghost use Rattle.tui_frames.specs.Space.{columns_around, rows_around};

use crate::block::Block;
use std::alloc::Global;
use tui_cells::{Buffer, Mem, Rect, Style};

/// A block that a widget may have.
pub trait BlockExt {
    /// The area inside the block, given the area of the block.
    ghost inside: { Self → Rect → Rect };

    /// Returns the area inside the block, or the whole area if there is no block.
    fn inner_if_some(&self, area: Rect) -> Rect
        ensures { result ≡ inside self.now area };
}

impl<'a> BlockExt for Option<Block<'a>> {
    ghost inside = { λ block area. inner_of (option_map block_data block) area };

    fn inner_if_some(&self, area: Rect) -> Rect {
        match self {
            None => area,
            Some(block) => block.inner(area),
        }
    }
}

/// Draws the block that a widget may have in the widget's clip.
pub fn paint_if_some(
    alloc: Global,
    buf: &mut Buffer,
    clip: Rect,
    block: &Option<Block<'_>>,
) -> Mem<()>
    ensures ok { OnOk result (Painted (block_layers_if (option_map block_data block.now) clip) buf.old buf.new) }
    ensures kept { KeptOutside (footprint_if (option_map block_data block.now) clip) buf.old buf.new }
    ensures allocation_free { IsAllocationFreeIfBlock (option_map block_data block.now) → IsOk result }
{
    match block {
        None => Ok(()),
        Some(block) => block.paint_in(alloc, buf, clip),
    }
}

/// Sets a widget's style in its clip, and draws the block that it may have. Returns the area for the content.
pub fn paint_frame(
    alloc: Global,
    buf: &mut Buffer,
    clip: Rect,
    style: Style,
    block: &Option<Block<'_>>,
) -> Mem<Rect>
    ensures ok { OnOk result (Painted (frame_layers (option_map block_data block.now) style clip) buf.old buf.new) }
    ensures inside { IfOk result (λ inside. inside ≡ inner_of (option_map block_data block.now) clip) }
    ensures kept { KeptOutside (footprint_if (option_map block_data block.now) clip) buf.old buf.new }
    ensures allocation_free { IsAllocationFreeIfBlock (option_map block_data block.now) → IsOk result }
{
    buf.set_style(clip, style);
    paint_if_some(alloc, buf, clip, block)?;
    Ok(block.inner_if_some(clip))
}

/// Clones the block that a widget may have. Fails with `NoMemory` if its titles can't be allocated.
pub fn clone_if_some<'a>(block: &Option<Block<'a>>) -> Mem<Option<Block<'a>>>
    ensures is { IfOk result (λ copy. option_map block_data copy ≡ option_map block_data block.now) }
    ensures equal { IfOk result (λ copy. ⟦<Option<Block<'a>> as PartialEq>⟧.eq copy block.now ≡ true) }
{
    match block {
        None => Ok(None),
        Some(block) => Ok(Some(block.clone()?)),
    }
}

/// Returns a number plus what a block adds to it, cut at 2^64 - 1. Without a block it returns the number.
pub fn beside(number: usize, space: Option<usize>) -> usize
    ensures { result ≡ beside number space }
{
    match space {
        None => number,
        Some(space) => number.saturating_add(space),
    }
}

/// Returns how many rows a block takes above and below its content, or `None` without a block.
pub fn rows_if_some(block: &Option<Block<'_>>) -> Option<usize>
    ensures { result ≡ option_map rows_around (option_map block_data block.now) }
{
    match block {
        None => None,
        Some(block) => {
            let (above, below) = block.vertical_space();
            Some(usize::from(above) + usize::from(below))
        }
    }
}

/// Returns how many columns a block takes at the left and at the right of its content, or `None` without a block.
pub fn columns_if_some(block: &Option<Block<'_>>) -> Option<usize>
    ensures { result ≡ option_map columns_around (option_map block_data block.now) }
{
    match block {
        None => None,
        Some(block) => {
            let (before, following) = block.horizontal_space();
            Some(usize::from(before) + usize::from(following))
        }
    }
}
