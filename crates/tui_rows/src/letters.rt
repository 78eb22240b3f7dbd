//! Letters of two bytes.

ghost use Rattle.std.specs.Prelude.{◌≡◌, IsTrue};
ghost use Rattle.tui_text.specs.Visible.{step_of};

/// Whether a symbol is one Latin, Greek or Cyrillic letter of two bytes. It takes one column, so its width
/// need not be looked up.
#[inline]
pub(crate) fn is_letter(symbol: &str) -> bool
    ensures { IsTrue result → step_of symbol.now ≡ 1 }
{
    tui_clusters::is_letter(symbol)
}
