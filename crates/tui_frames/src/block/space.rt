//! The space inside a block.

ghost use Rattle.std.specs.Prelude.{◌≡◌, ◌+◌, ◌-◌, ◌≤◌, min, false, IsTrue};
ghost use Rattle.tui_cells.specs.Rect.{is_empty, farthest_edge};
ghost use Rattle.tui_frames.specs.Block.{block_data};
ghost use Rattle.tui_frames.specs.Space.{LiesIn, bottom_edge, inner, left_edge, right_edge, top_edge};

use crate::block::Block;
use crate::borders::Borders;
use crate::title_position::TitlePosition;
use tui_cells::Rect;

impl<'a> Block<'a> {
    pub(crate) fn left_edge(&self) -> u16
        ensures is { result ≡ left_edge (block_data self.now) }
        ensures few { result ≤ 1 }
    {
        u16::from(self.borders.contains(Borders::LEFT))
    }

    pub(crate) fn right_edge(&self) -> u16
        ensures is { result ≡ right_edge (block_data self.now) }
        ensures few { result ≤ 1 }
    {
        u16::from(self.borders.contains(Borders::RIGHT))
    }

    fn top_edge(&self) -> u16
        ensures is { result ≡ top_edge (block_data self.now) }
        ensures few { result ≤ 1 }
    {
        let has_title = self.has_title(TitlePosition::Top);
        u16::from(self.borders.contains(Borders::TOP) | has_title)
    }

    fn bottom_edge(&self) -> u16
        ensures is { result ≡ bottom_edge (block_data self.now) }
        ensures few { result ≤ 1 }
    {
        let has_title = self.has_title(TitlePosition::Bottom);
        u16::from(self.borders.contains(Borders::BOTTOM) | has_title)
    }

    /// Returns the area that is left inside the borders, the titles and the padding of an area. An empty area has an
    /// empty inner area. An inner area that is not empty lies in the area.
    pub fn inner(&self, area: Rect) -> Rect
        ensures is { result ≡ inner (block_data self.now) area }
        ensures inside { is_empty result ≡ false → LiesIn result area }
        ensures empty { IsTrue (is_empty area) → IsTrue (is_empty result) }
    {
        let left = self.left_edge();
        let right = self.right_edge();
        let top = self.top_edge();
        let bottom = self.bottom_edge();
        let padding = self.padding;
        let x = area.x.saturating_add(left).min(area.right());
        let y = area.y.saturating_add(top).min(area.bottom());
        Rect {
            x: x.saturating_add(padding.left),
            y: y.saturating_add(padding.top),
            width: left_over(area.width, left + right, padding.left, padding.right),
            height: left_over(area.height, top + bottom, padding.top, padding.bottom),
        }
    }

    /// Returns the columns at the left and at the right of the content: those of a border and of the padding, at most
    /// 65535 each.
    pub fn horizontal_space(&self) -> (u16, u16)
        ensures left { result.0 ≡ min ((block_data self.now).padding.left + left_edge (block_data self.now)) farthest_edge }
        ensures right { result.1 ≡ min ((block_data self.now).padding.right + right_edge (block_data self.now)) farthest_edge }
    {
        (
            self.padding.left.saturating_add(self.left_edge()),
            self.padding.right.saturating_add(self.right_edge()),
        )
    }

    /// Returns the rows above and below the content: one for a border or titles, and those of the padding, at most
    /// 65535 each.
    pub fn vertical_space(&self) -> (u16, u16)
        ensures top { result.0 ≡ min ((block_data self.now).padding.top + top_edge (block_data self.now)) farthest_edge }
        ensures bottom { result.1 ≡ min ((block_data self.now).padding.bottom + bottom_edge (block_data self.now)) farthest_edge }
    {
        (
            self.padding.top.saturating_add(self.top_edge()),
            self.padding.bottom.saturating_add(self.bottom_edge()),
        )
    }
}

/// Returns what is left of a size without the edges and the padding on both sides.
fn left_over(size: u16, edges: u16, before: u16, after: u16) -> u16
    ensures { result ≡ size - edges - (before + after) }
{
    size.saturating_sub(edges)
        .saturating_sub(before)
        .saturating_sub(after)
}
