//! Copying one buffer into another.

ghost use Rattle.std.specs.Prelude.{◌≡◌, All, IsOk, OnErr, OnOk};
ghost use Rattle.tui_cells.specs.Cell.{IsAllocationFree};
ghost use Rattle.tui_cells.specs.Copying.{IsPartialCopy};

use crate::buffer::Buffer;
use crate::memory::Mem;
use crate::row::copy_rows;

impl Buffer {
    /// Makes the buffer show what another buffer of the same area shows. Symbols of at most 8 bytes do not allocate.
    /// Fails with `NoMemory` if memory runs out; each cell is then either unchanged or a copy of the other buffer's. If
    /// nothing was ever written to a row of the other buffer, copying it only drops the old cells, one step each.
    pub fn copy_from(&mut self, other: &Buffer) -> Mem<()>
        requires { self.old.area ≡ other.now.area }
        ensures ok { OnOk result (self.new ≡ other.now) }
        ensures err { OnErr result (IsPartialCopy other.now self.old self.new) }
        ensures allocation_free { All (All (λ c. IsAllocationFree c.symbol)) other.now.rows → IsOk result }
    {
        copy_rows(&mut self.rows, &other.rows)
    }
}
