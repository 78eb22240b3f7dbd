//! Laws of a pager after any calls.

ghost use Rattle.tui_pager_lib.specs.Laws.{ScreenIsUnique, SelectedIsVisible, StaysSound};

/// After `new` and any list of keys and sizes, each of which succeeded, the selection is an entry. The first line is at
/// most the last one that shows the body's end. The offset is the one that the list scrolls to.
///
/// If the title of the selected entry has at most as many lines as the list has rows, all of its lines are visible: it
/// is among the entries from the offset on that the list draws, and these fit together.
///
/// A size, entries and a state have exactly one screen. The clauses of `Pager::new`, `key` and `resize` state that each
/// call takes the step of these laws (`after_call`).
pub fn pager_laws()
    ensures sound { StaysSound }
    ensures visible { SelectedIsVisible }
    ensures screen { ScreenIsUnique }
{}
