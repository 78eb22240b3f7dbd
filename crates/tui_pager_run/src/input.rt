//! The fields of the input.

ghost use Rattle.serde_json.specs.View.{view};
ghost use Rattle.tui_json.specs.Refusals.{Gives};
ghost use Rattle.tui_pager_run.specs.Input.{entry_of, input_data, input_of, screen_size_of, size_data};
ghost use Rattle.tui_pager_lib.specs.Entry.{entry_data};

use crate::bad_input::BadInput;
use crate::field::PagerField;
use crate::step::PagerStep;
use serde_json::Value;
use std::alloc::Global;
use tui_json::{Counted, InputError, Numbered, Short, Within, each_numbered, required};
use tui_pager_lib::{Entry, PagerSize};

/// All fields of an input. Its strings are borrowed from the JSON value.
#[derive(Drop)]
pub(crate) struct Input<'v> {
    pub(crate) size: PagerSize,
    pub(crate) entries: Vec<Entry<'v>>,
    pub(crate) steps: Vec<PagerStep>,
}

/// Reads the input from a JSON value. Fails at the first field that is missing or not of its kind, of the input or of
/// one of its entries or keys.
#[tactic(auto, unfolding(crate::specs::Input::input_of))]
pub(crate) fn read_input<'v>(
    alloc: Global,
    value: &'v Value,
) -> Result<Input<'v>, InputError<BadInput>>
    ensures { Gives input_data result (input_of (view value.now)) }
{
    let size = read_size(alloc, value)?;
    let Counted(values): Counted<'v, 0, 1000> = required(alloc, None, PagerField::Entries, value)?;
    let entries = each_numbered::<Entry<'v>, PagerField>(alloc, (), values)?;
    let Counted(values): Counted<'v, 0, 1000> = required(alloc, None, PagerField::Keys, value)?;
    let steps = each_numbered::<PagerStep, PagerField>(alloc, (), values)?;
    Ok(Input {
        size,
        entries,
        steps,
    })
}

#[tactic(auto, unfolding(crate::specs::Input::screen_size_of))]
fn read_size<'v>(alloc: Global, value: &'v Value) -> Result<PagerSize, InputError<BadInput>>
    ensures { Gives size_data result (screen_size_of (view value.now)) }
{
    let Within(width): Within<12, 200> = required(alloc, None, PagerField::Width, value)?;
    let Within(height): Within<5, 100> = required(alloc, None, PagerField::Height, value)?;
    Ok(PagerSize { width, height })
}

impl<'v> Numbered<'v, PagerField> for Entry<'v> {
    ghost use Rattle.tui_pager_lib.specs.Entry.{EntryData};

    type Context = ();

    ghost AsData = { EntryData };

    ghost as_data = { entry_data };

    ghost tests = { λ context. entry_of };

    #[tactic(auto, unfolding(crate::specs::Input::entry_of))]
    fn read(
        alloc: Global,
        _known: (),
        number: usize,
        value: &'v Value,
    ) -> Result<Entry<'v>, InputError<BadInput>> {
        let at = Some(number);
        let Short(title): Short<'v, 1000> = required(alloc, at, PagerField::Title, value)?;
        let Short(body): Short<'v, 65536> = required(alloc, at, PagerField::Body, value)?;
        Ok(Entry { title, body })
    }
}
