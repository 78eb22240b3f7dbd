//! The symbols of lines.

ghost use Rattle.std.specs.Prelude.{◌≡◌, map};
ghost use Rattle.tui_cells.specs.Symbols.{line_data, line_sets, line_symbols};

/// The symbols of a vertical and of a horizontal line.
#[derive(Clone, Copy, Debug, PartialEq, Eq, Hash)]
pub struct Set<'a> {
    pub vertical: &'a str,
    pub horizontal: &'a str,
}

/// A light vertical line.
pub const VERTICAL: &str = "│";

/// A light horizontal line.
pub const HORIZONTAL: &str = "─";

/// Light lines.
pub const NORMAL: Set<'static> = Set {
    vertical: "│",
    horizontal: "─",
};

/// Double lines.
pub const DOUBLE: Set<'static> = Set {
    vertical: "║",
    horizontal: "═",
};

/// Heavy lines.
pub const THICK: Set<'static> = Set {
    vertical: "┃",
    horizontal: "━",
};

// Each constant is what the table of symbols says.
fn sets() -> [Set<'static>; 3]
    ensures { map line_data result ≡ line_sets }
{
    [NORMAL, DOUBLE, THICK]
}

fn symbols() -> [&'static str; 2]
    ensures { map (λ s. s.now) result ≡ line_symbols }
{
    [VERTICAL, HORIZONTAL]
}
