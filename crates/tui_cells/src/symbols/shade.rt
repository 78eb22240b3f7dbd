//! Shades of a cell.

ghost use Rattle.std.specs.Prelude.{◌≡◌, map};
ghost use Rattle.tui_cells.specs.Symbols.{shade_symbols};

/// A space.
pub const EMPTY: &str = " ";

/// A light shade.
pub const LIGHT: &str = "░";

/// A medium shade.
pub const MEDIUM: &str = "▒";

/// A dark shade.
pub const DARK: &str = "▓";

/// A full cell.
pub const FULL: &str = "█";

// Each constant is what the table of symbols says.
fn symbols() -> [&'static str; 5]
    ensures { map (λ s. s.now) result ≡ shade_symbols }
{
    [EMPTY, LIGHT, MEDIUM, DARK, FULL]
}
