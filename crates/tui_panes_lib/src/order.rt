//! Orders of leaves.

ghost use Rattle.std.specs.Prelude.{◌≡◌, ◌↔◌, IsTrue, All, false, true, length};
ghost use Rattle.tui_scene.specs.Redraw.{IsOrder};
ghost use Rattle.tui_panes_lib.specs.Order.{AreMarked};

/// Returns whether an order has the number of each mark exactly once and no other number. Does not allocate. The number
/// of steps is linear in the marks and the numbers.
pub(crate) fn is_order(marks: &mut [bool], order: &[usize]) -> bool
    ensures is { IsTrue result ↔ IsOrder (length marks.old) order.now }
    ensures same_length { length marks.new ≡ length marks.old }
{
    marks.fill(false);
    mark_each(marks, order) && !marks.contains(&false)
}

/// Marks the numbers of an order. Returns `false` at the first number that has no mark or that came before.
fn mark_each(marks: &mut [bool], order: &[usize]) -> bool
    requires { All (λ m. m ≡ false) marks.old }
    ensures marked { result ≡ true → AreMarked marks.new order.now }
    ensures other { result ≡ false → IsOrder (length marks.old) order.now → ⊥ }
    ensures same_length { length marks.new ≡ length marks.old }
{
    'marking: for &leaf in order {
        if leaf >= marks.len() || marks[leaf] {
            return false;
        }
        marks[leaf] = true;
    }
    true
}
