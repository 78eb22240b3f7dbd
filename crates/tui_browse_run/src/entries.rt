//! Entries in JSON.

ghost use Rattle.serde_json.specs.View.{view};
ghost use Rattle.std.specs.Prelude.{map};
ghost use Rattle.tui_json.specs.Refusals.{Gives};
ghost use Rattle.tui_browse_run.specs.Input.{entries_of};
ghost use Rattle.tui_pager_lib.specs.Entry.{entry_data};

use serde_json::Value;
use std::alloc::Global;
use tui_json::{Counted, InputError, each_numbered, required};
use tui_pager_lib::Entry;
use tui_pager_run::{BadInput, PagerField};

/// Reads the entries of the input: an object with an array of at most 1000 of them, as `tui_pager` reads it. Rejects
/// the first field that is missing or of the wrong kind.
#[tactic(auto, unfolding(crate::specs::Input::entries_of))]
pub(crate) fn read_entries<'v>(
    alloc: Global,
    value: &'v Value,
) -> Result<Vec<Entry<'v>>, InputError<BadInput>>
    ensures { Gives (λ entries. map entry_data entries.items) result (entries_of (view value.now)) }
{
    let Counted(values): Counted<'v, 0, 1000> = required(alloc, None, PagerField::Entries, value)?;
    each_numbered::<Entry<'v>, PagerField>(alloc, (), values)
}
