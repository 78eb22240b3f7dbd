//! Strings.

use crate::explains::Explains;
use crate::fault::Fault;
use crate::kind::{Kind, KindError};
use crate::wanted::Wanted;
use serde_json::Value;
use std::alloc::Global;
use tui_cells::Mem;

impl<'v, F> Kind<'v, F> for &'v str {
    ghost use Rattle.std.specs.Prelude.{ℕ, List};
    ghost use Rattle.serde_json.specs.Find.{as_str};

    ghost AsData = { List ℕ };

    ghost as_data = { λ text. text.now };

    ghost kind = { as_str };

    fn read(_alloc: Global, value: &'v Value) -> Result<&'v str, KindError> {
        value.as_str().ok_or(KindError::WrongKind)
    }
}

impl<'v, F> Explains<'v, F> for &'v str {
    ghost use Rattle.std.specs.Prelude.{codes};
    ghost use Rattle.tui_json.specs.Faults.{no_parts, words};

    ghost wanted = { words (codes "a string") };

    ghost part_fault = { no_parts };

    fn wanted() -> Wanted<'v> {
        Wanted::Words("a string")
    }

    fn part_fault(_alloc: Global, _value: &'v Value) -> Mem<Option<Fault<'v>>> {
        Ok(None)
    }
}

/// A string of at most `MOST` bytes. Reading it does not allocate.
#[derive(Drop)]
pub struct Short<'v, const MOST: usize>(pub &'v str);

impl<'v, F, const MOST: usize> Kind<'v, F> for Short<'v, MOST> {
    ghost use Rattle.std.specs.Prelude.{ℕ, List};
    ghost use Rattle.tui_json.specs.Text.{short};

    ghost AsData = { List ℕ };

    ghost as_data = { λ text. text.0.now };

    ghost kind = { short MOST };

    #[tactic(auto, unfolding(crate::specs::Text::short))]
    fn read(_alloc: Global, value: &'v Value) -> Result<Short<'v, MOST>, KindError> {
        match value.as_str() {
            Some(text) if text.len() <= MOST => Ok(Short(text)),
            _ => Err(KindError::WrongKind),
        }
    }
}

impl<'v, F, const MOST: usize> Explains<'v, F> for Short<'v, MOST> {
    ghost use Rattle.tui_json.specs.Faults.{no_parts, text};

    ghost wanted = { text 0 MOST };

    ghost part_fault = { no_parts };

    fn wanted() -> Wanted<'v> {
        Wanted::Text(0, MOST)
    }

    fn part_fault(_alloc: Global, _value: &'v Value) -> Mem<Option<Fault<'v>>> {
        Ok(None)
    }
}
