//! `==` and clones of fields and errors, and that the fault of a rejected scene is found.

ghost use Rattle.std.specs.Prelude.{◌≡◌, true};
ghost use Rattle.tui_schema.specs.Laws.{ItemsAreExplained, ScenesAreExplained};

use crate::bad_field::BadField;
use crate::error::SceneError;
use crate::field::Field;

/// `==` returns true only for equal fields, rejected fields and errors, and a clone is equal to its original.
pub fn refusal_laws()
    ensures field { (a b : Field) → ⟦<Field as PartialEq>⟧.eq a b ≡ true → a ≡ b }
    ensures bad_field { (a b : BadField) → ⟦<BadField as PartialEq>⟧.eq a b ≡ true → a ≡ b }
    ensures error { (a b : SceneError) → ⟦<SceneError as PartialEq>⟧.eq a b ≡ true → a ≡ b }
    ensures field_clone { (a b : Field) → ⟦<Field as Clone>⟧.is_clone a b → b ≡ a }
    ensures bad_field_clone { (a b : BadField) → ⟦<BadField as Clone>⟧.is_clone a b → b ≡ a }
    ensures error_clone { (a b : SceneError) → ⟦<SceneError as Clone>⟧.is_clone a b → b ≡ a }
{}

/// What `explain_scene` and `item_fault` find: a scene that is rejected has a fault, at the field that the rejection
/// names, and the path leads to the value that is not what is wanted, or to a value that is missing. So has an item whose
/// area is given elsewhere.
pub fn explained_law()
    ensures scenes { ScenesAreExplained }
    ensures items { ItemsAreExplained }
{}
