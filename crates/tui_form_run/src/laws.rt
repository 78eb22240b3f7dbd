//! What holds for every run of the program.

ghost use Rattle.tui_form_run.specs.Laws.{AnswersReadBack, EndsLeftOrFilled, FormsAreExplained};

/// A form's answers are one line. Read as JSON (RFC 8259), it is the object with the name and the answer of each field,
/// in order.
pub fn answers_law()
    ensures { AnswersReadBack }
{}

/// If the user ends the session of an open form, the form was left, or it was accepted and each needed field is filled
/// in. Its fields keep their names. Every run shows an open form.
pub fn filled_law()
    ensures { EndsLeftOrFilled }
{}

/// What `explain_form` says of a form that is rejected: there is a fault, at the key that the rejection names, and the
/// path leads to the value that is not what is wanted, or to a value that is missing.
pub fn explained_law()
    ensures { FormsAreExplained }
{}
