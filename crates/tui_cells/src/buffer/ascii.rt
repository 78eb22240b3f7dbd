//! ASCII text, written one character a cell.

ghost use Rattle.std.specs.Prelude.{◌≡◌, ◌+◌, ◌-◌, ◌<◌, ◌≤◌, IsAscii, length, min};
ghost use Rattle.tui_cells.specs.Layers.{Painted, ascii_layers};
ghost use Rattle.tui_cells.specs.Rect.{bottom_of, right_of};

use crate::buffer::Buffer;
use crate::position::Position;
use crate::style::Style;

impl Buffer {
    /// Writes ASCII text into the cells from a position on, one character a cell, each with the style. Characters
    /// outside the area are left out. Does not allocate. A style that sets nothing takes no time.
    pub fn set_ascii(&mut self, at: Position, text: &[u8], style: Style)
        requires { IsAscii text.now }
        ensures { Painted (ascii_layers at.x at.y style text.now) self.old self.new }
    {
        if at.y < self.area.y || self.area.bottom() <= at.y {
            return;
        }
        let from = self.area.x.saturating_sub(at.x) as usize;
        let to = text
            .len()
            .min(self.area.right().saturating_sub(at.x) as usize);
        if to <= from {
            return;
        }
        self.set_ascii_in(at, text, from, to, style);
    }

    // Writes the bytes from `from` up to `to`, which are those that lie in the area.
    fn set_ascii_in(&mut self, at: Position, text: &[u8], from: usize, to: usize, style: Style)
        requires ascii { IsAscii text.now }
        requires row { (self.old.area.y ≤ at.y) × (at.y < bottom_of self.old.area) }
        requires first { from ≡ self.old.area.x - at.x }
        requires last { to ≡ min (length text.now) (right_of self.old.area - at.x) }
        requires some { from < to }
        ensures { Painted (ascii_layers at.x at.y style text.now) self.old self.new }
    {
        let place = (at.x as usize + from) - self.area.x as usize;
        let row = &mut self.rows[(at.y - self.area.y) as usize];
        row.set_ascii(place, place + (to - from), &text[from..to], style);
    }
}
