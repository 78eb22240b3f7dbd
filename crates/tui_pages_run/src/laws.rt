//! What holds for every input of the program.

ghost use Rattle.tui_pages_run.specs.Laws.{ReportsAreExplained};

/// What `explain_report` says of a report that is rejected: there is a fault, at the field or the record that the
/// rejection names, and the path leads to the value that is not what is wanted, or to a value that is missing.
pub fn explained_law()
    ensures { ReportsAreExplained }
{}
