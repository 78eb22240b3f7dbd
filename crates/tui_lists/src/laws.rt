//! Laws of all lists and scrollbars.

ghost use Rattle.tui_lists.specs.Laws.{ItemsAreOverStyles, SelectedIsShown, RedrawKeepsStrokes};
ghost use Rattle.tui_lists.specs.TrackParts.{ThumbLaws};

/// Laws of every list. If the selected item fits, it is among the items that are drawn, and these fit together. A
/// second drawing in the same area has the same strokes, since the state stays the same.
///
/// Inside a block, the items are drawn over the old cells, on which the list's style and the block's style are set.
/// Nothing else is drawn there. This holds in a clip whose far edges are at most 65535.
pub fn list_laws()
    ensures selected { SelectedIsShown }
    ensures again { RedrawKeepsStrokes }
    ensures inside { ItemsAreOverStyles }
{}

/// Laws of the parts of every scrollbar's track, for all numbers. The parts add up to the track. The thumb takes at
/// least one cell and follows the position. It is at the beginning at position 0, and at the end from the last position
/// on.
pub fn thumb_laws()
    ensures { ThumbLaws }
{}
