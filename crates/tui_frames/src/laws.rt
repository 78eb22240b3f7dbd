//! Laws of all blocks.

ghost use Rattle.tui_frames.specs.Laws.{InsideIsStyled};

/// In a clip whose far edges are at most 65535, each cell inside a block is the old one with the block's style set on
/// it. Borders, titles and shadow stay outside.
pub fn block_laws()
    ensures inside { InsideIsStyled }
{}
