//! Comparing rows of two buffers.

ghost use Rattle.std.specs.Prelude.{◌≡◌, ◌↔◌, ◌<◌, [], IsTrue, length, slice_index_or};

use crate::buffer::Buffer;
use crate::row::are_same;

impl Buffer {
    /// Whether a row shows the same as that row of another buffer. Rows count from 0 at the top of the area. Takes
    /// constant time if nothing was ever written to either row.
    pub fn is_row_same(&self, other: &Buffer, row: usize) -> bool
        requires { (row < length self.now.rows) × (row < length other.now.rows) }
        ensures { IsTrue result ↔ (slice_index_or self.now.rows row [] ≡ slice_index_or other.now.rows row []) }
    {
        let one = &self.rows[row];
        let two = &other.rows[row];
        if one.has_no_cells() && two.has_no_cells() {
            return self.area.width == other.area.width;
        }
        are_same(one.cells_or(&self.blanks), two.cells_or(&other.blanks))
    }
}
