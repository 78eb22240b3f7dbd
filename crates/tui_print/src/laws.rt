//! Laws of the print.

ghost use Rattle.tui_print.specs.Laws.{CellsHaveRuns, PrintIsUnique, RunsAreUnique};

/// A row has exactly one list of runs, and each styled cell is in exactly one of them. A buffer with its widgets has
/// exactly one print.
pub fn print_laws()
    ensures runs { RunsAreUnique }
    ensures cells { CellsHaveRuns }
    ensures print { PrintIsUnique }
{}
