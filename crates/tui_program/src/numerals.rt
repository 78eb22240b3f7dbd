//! Arguments that are numbers.

ghost use Rattle.std.specs.Prelude.{◌≡◌, ◌==◌, ℕ, IfSome, IsNone, slice_index};
ghost use Rattle.tui_program.specs.Arguments.{HaveNumber, HaveNumbers, IsOnly, IsNumeralOf};

use crate::arguments::start_with;

/// Which numbers an argument may be: ASCII decimal digits, at most `digits` of them, and within two bounds.
#[derive(Clone, Copy, Debug, PartialEq, Eq)]
pub struct Numerals {
    /// The greatest number of digits, leading zeros included.
    pub digits: usize,
    /// The least number.
    pub least: u32,
    /// The greatest number.
    pub most: u32,
}

impl Numerals {
    /// Returns the number that an argument denotes. Returns None exactly if it denotes no allowed number.
    pub fn number_in(self, word: &str) -> Option<u32>
        ensures some { IfSome result (IsNumeralOf self word.now) }
        ensures none { IsNone result → (n : ℕ) → IsNumeralOf self word.now n → ⊥ }
    {
        // `parse` accepts a plus before the digits.
        if word.len() > self.digits || begins_with_plus(word) {
            return None;
        }
        match word.parse::<u32>() {
            Ok(n) if self.least <= n && n <= self.most => Some(n),
            _ => None,
        }
    }
}

fn begins_with_plus(text: &str) -> bool
    ensures { result ≡ (slice_index text.now 0 == 43) }
{
    match text.as_bytes() {
        [b'+', ..] => true,
        _ => false,
    }
}

/// Returns the number after the argument `word`. Returns None exactly if the arguments are not `word` and one allowed
/// number.
pub fn number_after(arguments: &[String], word: &str, allowed: Numerals) -> Option<u32>
    ensures { IsOnly (λ n. HaveNumber word.now allowed n arguments.now) result }
{
    if start_with(arguments, 2, word) {
        allowed.number_in(arguments[1].as_str())
    } else {
        None
    }
}

/// Returns the two numbers after the argument `word`. Returns None exactly if the arguments are not `word` and two
/// allowed numbers.
pub fn numbers_after(arguments: &[String], word: &str, allowed: Numerals) -> Option<(u32, u32)>
    ensures { IsOnly (λ p. HaveNumbers word.now allowed p.0 p.1 arguments.now) result }
{
    if start_with(arguments, 3, word) {
        let first = allowed.number_in(arguments[1].as_str());
        first.zip(allowed.number_in(arguments[2].as_str()))
    } else {
        None
    }
}
