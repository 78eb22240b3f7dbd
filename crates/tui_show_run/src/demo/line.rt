//! The line before the rows.

ghost use Rattle.std.specs.Prelude.{◌≡◌, IfOk, string_bytes};
ghost use Rattle.tui_show_run.specs.Demo.Line.{demo_line};

use std::alloc::Global;
use tui_cells::Mem;

/// Returns the line that says how many items there are, which one is shown first, and how many lines the words take.
/// Fails with `NoMemory` if the line can't be allocated.
pub fn demo_line(alloc: Global, n: u32, offset: usize, lines: usize) -> Mem<String>
    ensures { IfOk result (λ line. string_bytes line ≡ demo_line n offset lines) }
{
    Ok(format!(in alloc; "items {n} offset {offset} lines {lines}\n")?)
}
