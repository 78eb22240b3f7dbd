//! Values that `==` compares exactly, and whose clones are equal to them.

ghost use Rattle.std.specs.Prelude.{◌≡◌, ◌&&◌};
ghost use Rattle.tui.specs.Order.{PaddingIsOrdered};
ghost use Rattle.tui.specs.Texts.{same_text};
ghost use Rattle.tui_pager_lib.specs.declared.entry.Entry.{Entry};
ghost use Rattle.tui_pages_lib.specs.declared.column.Column.{Column};

use crate::layout::Constraint;
use crate::pager::Entry;
use crate::report::Column;
pub use tui_cells::{Copied, Plain};

/// Two entries of a pager are equal exactly if their titles and their bodies are equal strings. Two columns of a report
/// are equal exactly if their names are equal strings and their sizes are equal.
pub fn text_laws<'a>()
    ensures entry { (a b : Entry) → ⟦<Entry<'a> as PartialEq>⟧.eq a b ≡ (same_text a.title.now b.title.now && same_text a.body.now b.body.now) }
    ensures column { (a b : Column) → ⟦<Column<'a> as PartialEq>⟧.eq a b
        ≡ (same_text a.name.now b.name.now && ⟦<Constraint as PartialEq>⟧.eq a.size b.size) }
{}

/// Padding is ordered by its left side first, then by the right one, the top and the bottom.
pub fn padding_laws()
    ensures order { PaddingIsOrdered }
{}
