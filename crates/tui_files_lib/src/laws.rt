//! What holds for every session of a browser, and for `==` and clones of its values.

ghost use Rattle.std.specs.Prelude.{◌≡◌, true};
ghost use Rattle.tui_files_lib.specs.Laws.{NamesAreShown};
ghost use Rattle.tui_files_lib.specs.declared.folders.EntryKind.{EntryKind};

use crate::files::FilesApp;
use crate::folders::{EntryKind, Folders};
use tui_app_laws::waiting_law;
use tui_terminal_model::Output;

/// While a session waits for input, any terminal that has read the output shows the browser's screen, whatever it
/// showed before. If that screen has room, the list of the names is in its left half. If there are names, the selected
/// one is among those drawn. A screen without room shows `too small`.
pub fn files_law<F: Folders + Drop>(output: Output)
    ensures { NamesAreShown F F.lists output }
{
    waiting_law::<FilesApp<F>>(output);
}

/// Kinds of names that are equal by `==` are the same, and a clone is the value.
pub fn kind_laws()
    ensures kind { (a b : EntryKind) → ⟦<EntryKind as PartialEq>⟧.eq a b ≡ true → a ≡ b }
    ensures kind_clone { (a b : EntryKind) → ⟦<EntryKind as Clone>⟧.is_clone a b → b ≡ a }
{}
