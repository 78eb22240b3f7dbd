//! The keys of an input.

ghost use Rattle.tui_pager_run.specs.Keys.{keys};

use crate::bad_input::BadInput;
use crate::field::PagerField;
use serde_json::Value;
use std::alloc::Global;
use tui_json::{InputError, Kind, KindError, Named, Numbered, Within, by_name, error_at};
use tui_pager_lib::{Key, PagerSize};

/// One of the keys of an input: a key, by its name, or another size of the screen.
#[derive(Clone, Copy, Drop)]
pub(crate) enum PagerStep {
    Press(Key),
    Resize(PagerSize),
}

impl Named<PagerField> for Key {
    ghost use Rattle.tui_json.specs.Named.{reads_named};

    ghost names = { keys };

    ghost reads = { reads_named keys };

    #[tactic(auto, unfolding(tui_json::specs::Named::listed_names))]
    fn listed() -> &'static str {
        "`Up`, `Down`, `PageUp`, `PageDown`, `First`, `Last`, `LineUp`, `LineDown`, `BodyTop` or `BodyEnd`"
    }
}

impl<'v> Kind<'v, PagerField> for PagerSize {
    ghost use Rattle.std.specs.Prelude.{ℕ};
    ghost use Rattle.tui_pager_run.specs.Input.{size_of};

    ghost AsData = { ℕ × ℕ };

    ghost as_data = { λ size. (size.width, size.height) };

    ghost kind = { size_of };

    fn read(alloc: Global, value: &'v Value) -> Result<PagerSize, KindError> {
        let sides = <(Within<12, 200>, Within<5, 100>) as Kind<'v, PagerField>>::read(
            alloc, value,
        )?;
        Ok(PagerSize {
            width: sides.0.0,
            height: sides.1.0,
        })
    }
}

impl<'v> Kind<'v, PagerField> for PagerStep {
    ghost use Rattle.tui_pager_run.specs.Input.{step_call, call_of};
    ghost use Rattle.tui_pager_lib.specs.Laws.{Call};

    ghost AsData = { Call };

    ghost as_data = { step_call };

    ghost kind = { call_of };

    fn read(alloc: Global, value: &'v Value) -> Result<PagerStep, KindError> {
        match by_name::<Key, PagerField>(value) {
            Some(key) => Ok(PagerStep::Press(key)),
            None => Ok(PagerStep::Resize(<PagerSize as Kind<'v, PagerField>>::read(alloc, value)?)),
        }
    }
}

impl<'v> Numbered<'v, PagerField> for PagerStep {
    ghost use Rattle.tui_pager_run.specs.Input.{step_call, key_of};
    ghost use Rattle.tui_pager_lib.specs.Laws.{Call};

    type Context = ();

    ghost AsData = { Call };

    ghost as_data = { step_call };

    ghost tests = { λ context. key_of };

    fn read(
        alloc: Global,
        _known: (),
        number: usize,
        value: &'v Value,
    ) -> Result<PagerStep, InputError<BadInput>> {
        match <PagerStep as Kind<'v, PagerField>>::read(alloc, value) {
            Ok(step) => Ok(step),
            Err(why) => Err(error_at(PagerField::Keys, Some(number), why)),
        }
    }
}
