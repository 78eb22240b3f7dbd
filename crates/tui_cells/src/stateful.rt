//! Widgets that keep a state from one drawing to the next.

ghost use Rattle.std.specs.Prelude.{◌≡◌, IsOk, IsTrue, OnErr, OnOk};
ghost use Rattle.tui_cells.specs.Drawing.{StatefulDrawing};
ghost use Rattle.tui_cells.specs.Layers.{KeptOutside, Painted};
ghost use Rattle.tui_cells.specs.Rect.{intersection_of, is_empty};

use crate::buffer::Buffer;
use crate::memory::Mem;
use crate::rect::Rect;
use std::alloc::Global;

/// A widget that draws itself into its clip by a state, and updates the state for the next drawing.
pub trait StatefulWidget {
    /// What is kept between two drawings.
    type State;

    /// Describes what is drawn for each state, and the state after drawing.
    ghost stateful_drawing: { Self → StatefulDrawing Self.State };

    /// Draws the widget. On `Ok` each cell is the old one under the strokes for the old state, and the state is the one
    /// after drawing. On `NoMemory` the state, the buffer's area and all cells outside the footprint are unchanged. If
    /// the clip is empty, nothing changes, the state included, and the result is `Ok`. If `allocation_free` holds, drawing does
    /// not allocate and so returns `Ok`.
    fn render(
        &self,
        alloc: Global,
        area: Rect,
        buf: &mut Buffer,
        state: &mut Self::State,
    ) -> Mem<()>
        ensures ok { OnOk result (Painted ((stateful_drawing self.now).layers state.old (intersection_of area buf.old.area)) buf.old buf.new) }
        ensures state { OnOk result (state.new ≡ (stateful_drawing self.now).after (intersection_of area buf.old.area) state.old) }
        ensures shows { OnOk result ((stateful_drawing self.now).shows state.old state.new (intersection_of area buf.old.area) buf.old buf.new) }
        ensures err { OnErr result (KeptOutside ((stateful_drawing self.now).footprint (intersection_of area buf.old.area)) buf.old buf.new) }
        ensures err_state { OnErr result (state.new ≡ state.old) }
        ensures empty { IsTrue (is_empty (intersection_of area buf.old.area)) → IsOk result }
        ensures allocation_free { (stateful_drawing self.now).allocation_free → IsOk result };
}
