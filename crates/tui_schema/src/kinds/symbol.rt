//! Symbols: short strings for cells.

ghost use Rattle.std.specs.Prelude.{◌≡◌};
ghost use Rattle.tui_schema.specs.Kinds.Symbol.{is_control, is_symbol, symbol_of};

use crate::field::Field;
use serde_json::Value;
use std::alloc::Global;
use tui_cells::Mem;
use tui_json::{Explains, Fault, Kind, KindError, Wanted};

/// A string of at most 32 bytes without control characters.
#[derive(Drop)]
pub(crate) struct Symbol<'v>(pub &'v str);

fn is_control(c: char) -> bool
    ensures { result ≡ is_control c }
{
    c < ' ' || (c >= '\u{7f}' && c < '\u{a0}')
}

#[tactic(auto, unfolding(crate::specs::Kinds::Symbol::is_symbol))]
fn is_symbol(text: &str) -> bool
    ensures { result ≡ is_symbol text.now }
{
    text.len() <= 32 && text.chars().all(|c| !is_control(c))
}

impl<'v> Kind<'v, Field> for Symbol<'v> {
    ghost use Rattle.std.specs.Prelude.{ℕ, List};

    ghost AsData = { List ℕ };

    ghost as_data = { λ symbol. symbol.0.now };

    ghost kind = { symbol_of };

    #[tactic(auto, unfolding(crate::specs::Kinds::Symbol::symbol_of))]
    fn read(_alloc: Global, value: &'v Value) -> Result<Symbol<'v>, KindError> {
        match value.as_str() {
            Some(text) if is_symbol(text) => Ok(Symbol(text)),
            _ => Err(KindError::WrongKind),
        }
    }
}

impl<'v> Explains<'v, Field> for Symbol<'v> {
    ghost use Rattle.tui_json.specs.Faults.{no_parts};
    ghost use Rattle.tui_schema.specs.Faults.{a_symbol};

    ghost wanted = { a_symbol };

    ghost part_fault = { no_parts };

    fn wanted() -> Wanted<'v> {
        Wanted::Words("a string of at most 32 bytes without control characters")
    }

    fn part_fault(_alloc: Global, _value: &'v Value) -> Mem<Option<Fault<'v>>> {
        Ok(None)
    }
}
