//! What holds for the program's output, and for what it says of a rejected input.

ghost use Rattle.tui_panes_run.specs.Laws.{InputsAreExplained, OutputIsOne, PrintsAsFromBlank, ReverseIsSame};

/// Every run over an input writes the same output. Suppose that no widget of a leaf or of a change has a shadow. Then
/// the printed screen is what the final widgets draw on a blank buffer, from first to last. So `reverse` writes the
/// same.
pub fn output_laws()
    ensures one { OutputIsOne }
    ensures from_blank { PrintsAsFromBlank }
    ensures reverse { ReverseIsSame }
{}

/// What `explain_input` says of an input that is rejected: there is a fault, and the path leads to the value that is not
/// what is wanted, or to a value that is missing.
pub fn explained_law()
    ensures { InputsAreExplained }
{}
