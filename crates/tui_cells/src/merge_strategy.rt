//! How a border symbol is joined with the one that is already in the cell.

ghost use Rattle.std.specs.Prelude.{◌≡◌, None, Some};
ghost use Rattle.tui_cells.specs.BoxDrawing.{known_arms};
ghost use Rattle.tui_cells.specs.Cell.{IsAllocationFree, space};
ghost use Rattle.tui_cells.specs.Merging.{
  EitherOrderJoins,
  EveryJoinExists,
  FuzzyAlwaysJoins,
  PlainSymbolsJoin,
  UnknownGivesNew,
  exact,
  fuzzy,
  fuzzy_for,
  merged,
};

use crate::arms::Arms;
use crate::box_drawing::{drawn_as, symbol_with};
use crate::error::ParseError;
use std::fmt;
use std::str::FromStr;

/// How a border symbol is joined with the one that is already in the cell. `Display` writes the variant's name, and
/// `FromStr` reads it.
#[derive(Clone, Copy, Debug, PartialEq, Eq, Hash)]
pub enum MergeStrategy {
    /// The new symbol.
    Replace,
    /// The plain symbol with the arms of both, if both symbols are plain and there is such a symbol. Otherwise the new
    /// symbol.
    Exact,
    /// The plain symbol with the arms of both. Dashed and rounded symbols count as plain ones. If there is no such
    /// symbol, the one with light arms in place of double ones. If one of the two has no arms, the new symbol.
    Fuzzy,
}

impl MergeStrategy {
    /// Returns the symbol that joins an old and a new one. In a direction in which both have an arm, the new arm is
    /// taken. If either symbol has no arms, as a space has none, the result is the new symbol.
    pub fn merge<'s>(self, old: &str, new: &'s str) -> &'s str
        ensures is { result.now ≡ merged self old.now new.now }
        ensures allocation_free { IsAllocationFree new.now → IsAllocationFree result.now }
    {
        match self {
            MergeStrategy::Replace => new,
            MergeStrategy::Exact => exact(old, new),
            MergeStrategy::Fuzzy => fuzzy(old, new),
        }
    }
}

#[tactic(auto, unfolding(crate::specs::Merging::exact))]
fn exact<'s>(old: &str, new: &'s str) -> &'s str
    ensures { result.now ≡ exact old.now new.now }
{
    match (drawn_as(old).plain(), drawn_as(new).plain()) {
        (Some(old), Some(arms)) => match symbol_with(old.joined(arms)) {
            Some(symbol) => symbol,
            None => new,
        },
        _ => new,
    }
}

#[tactic(auto, unfolding(crate::specs::Merging::fuzzy))]
fn fuzzy<'s>(old: &str, new: &'s str) -> &'s str
    ensures { result.now ≡ fuzzy old.now new.now }
{
    match (drawn_as(old).arms(), drawn_as(new).arms()) {
        (Some(old), Some(arms)) => nearest(old.joined(arms), new),
        _ => new,
    }
}

/// Returns the plain symbol with these arms, or the one with light arms in place of double ones, or the new symbol.
fn nearest<'s>(arms: Arms, new: &'s str) -> &'s str
    ensures { result.now ≡ fuzzy_for (Some arms) new.now }
{
    if let Some(symbol) = symbol_with(arms) {
        return symbol;
    }
    match symbol_with(arms.lightened()) {
        Some(symbol) => symbol,
        None => new,
    }
}

impl Default for MergeStrategy {
    /// The new symbol.
    fn default() -> MergeStrategy
        ensures { result ≡ MergeStrategy.Replace }
    {
        MergeStrategy::Replace
    }
}

impl fmt::Display for MergeStrategy {
    ghost use Rattle.std.specs.Prelude.{Some};
    ghost use Rattle.tui_cells.specs.Strategies.{name_of};

    ghost output = { λ strategy. Some (name_of strategy) };

    fn fmt<W: fmt::Write>(&self, f: &mut fmt::Formatter<W>) -> fmt::Result {
        f.write_str(match self {
            MergeStrategy::Replace => "Replace",
            MergeStrategy::Exact => "Exact",
            MergeStrategy::Fuzzy => "Fuzzy",
        })
    }
}

impl FromStr for MergeStrategy {
    ghost use Rattle.tui_cells.specs.Names.{IsParsed};
    ghost use Rattle.tui_cells.specs.Strategies.{name_of};

    type Err = ParseError;

    ghost from_str_gives = { IsParsed name_of };

    /// Fails with `VariantNotFound` exactly if the string is not the name of a variant.
    fn from_str(text: &str) -> Result<MergeStrategy, ParseError> {
        match text {
            "Replace" => Ok(MergeStrategy::Replace),
            "Exact" => Ok(MergeStrategy::Exact),
            "Fuzzy" => Ok(MergeStrategy::Fuzzy),
            _ => Err(ParseError::VariantNotFound),
        }
    }
}

/// Each set of light and heavy arms has a plain symbol, so `Fuzzy` joins any two symbols that have arms to a plain one.
/// A space has no arms. If either symbol has no arms, the result is the new symbol. Two plain symbols give the plain
/// symbol with the arms of both, if there is one. In the other order they give the same symbol if no direction has two
/// different arms.
pub fn merging_laws()
    ensures every_join { EveryJoinExists }
    ensures fuzzy { FuzzyAlwaysJoins }
    ensures blank { known_arms space ≡ None }
    ensures unknown { UnknownGivesNew }
    ensures plain { PlainSymbolsJoin }
    ensures either_order { EitherOrderJoins }
{}
