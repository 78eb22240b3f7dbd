//! The widths of symbols, in columns.

ghost use Rattle.std.specs.Prelude.{◌≡◌, IsTrue};
ghost use Rattle.tui_text.specs.Visible.{step_of};

use tui_text::symbol_columns;

/// The symbol that was looked up last, and its step. The next symbol is often the same.
#[derive(Clone, Copy)]
pub(crate) struct WidthCache<'a> {
    symbol: &'a str,
    step: usize,
    ghost right: { step ≡ step_of symbol.now },
}

impl<'a> WidthCache<'a> {
    pub(crate) fn new() -> WidthCache<'a> {
        WidthCache {
            symbol: " ",
            step: symbol_columns(" "),
        }
    }

    /// Returns the number of columns from a cell with this symbol to the next visible one.
    pub(crate) fn step(&mut self, symbol: &'a str) -> usize
        ensures { result ≡ step_of symbol.now }
    {
        if !is_same(symbol, self.symbol) {
            *self = WidthCache {
                symbol,
                step: symbol_columns(symbol),
            };
        }
        self.step
    }
}

/// Whether two symbols are the same. Symbols of three bytes, such as lines and blocks, are
/// compared without a call.
#[inline]
fn is_same(one: &str, other: &str) -> bool
    ensures { IsTrue result → one.now ≡ other.now }
{
    match one.as_bytes().as_array::<3>() {
        Some(three) => is_text(other, *three),
        None => one == other,
    }
}

/// Whether a symbol is exactly these three bytes. Compares byte by byte, since comparing strings is a call.
#[inline]
pub(crate) fn is_text(symbol: &str, bytes: [u8; 3]) -> bool
    ensures { IsTrue result → symbol.now ≡ bytes }
{
    match symbol.as_bytes() {
        [a, b, c] if *a == bytes[0] && *b == bytes[1] && *c == bytes[2] => true,
        _ => false,
    }
}
