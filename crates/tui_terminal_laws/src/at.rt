//! What is known of a terminal while a row is sent.

ghost use Rattle.std.specs.Prelude.{◌≡◌};
ghost use Rattle.tui_terminal_laws.specs.Sending.{nothing_known};

use tui_cells::Attributes;

/// The cursor's column and the pen's attributes, as far as they are known.
#[derive(Clone, Copy)]
pub struct At {
    /// The cursor's column.
    pub column: usize,
    /// Whether the cursor is known to be in this column of the row.
    pub placed: bool,
    /// The pen's attributes.
    pub pen: Attributes,
    /// Whether the pen is known to have these attributes.
    pub painted: bool,
}

impl At {
    /// Nothing is known.
    pub fn nothing_known() -> At
        ensures { result ≡ nothing_known }
    {
        At {
            column: 0,
            placed: false,
            pen: Attributes::unstyled(),
            painted: false,
        }
    }
}
