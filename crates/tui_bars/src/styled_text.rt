//! Texts with a style.

ghost use Rattle.std.specs.Prelude.{◌≡◌};

use tui_cells::Style;

/// A text and the style in which it is written.
#[derive(Clone, Copy)]
pub(crate) struct StyledText<'t> {
    pub(crate) text: &'t str,
    pub(crate) style: Style,
}

impl<'t> StyledText<'t> {
    // Calling this gives the prover that the text is UTF-8.
    pub(crate) fn text(self) -> &'t str
        ensures { result.now ≡ self.entry.text.now }
    {
        self.text
    }
}
