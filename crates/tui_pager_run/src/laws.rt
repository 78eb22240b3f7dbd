//! The laws of the program's input and output.

ghost use Rattle.tui_pager_run.specs.Laws.{InputsAreExplained, OutputIsUnique};

use tui_pager_lib::pager_laws;
use tui_print::print_laws;

/// An accepted input has exactly one output, whatever the run.
pub fn output_law()
    ensures { OutputIsUnique }
{
    print_laws();
    pager_laws();
}

/// What `explain_input` says of an input that is rejected: there is a fault, at the field that the rejection names, and
/// the path leads to the value that is not what is wanted, or to a value that is missing.
pub fn explained_law()
    ensures { InputsAreExplained }
{}
