//! The symbols of scrollbars.

ghost use Rattle.std.specs.Prelude.{◌≡◌, map};
ghost use Rattle.tui_cells.specs.Symbols.{scrollbar_data, scrollbar_sets};

/// The symbols of the track, of the thumb on it, and of the bar's two ends.
#[derive(Clone, Copy, Debug, PartialEq, Eq, Hash)]
pub struct Set<'a> {
    pub track: &'a str,
    pub thumb: &'a str,
    pub begin: &'a str,
    pub end: &'a str,
}

/// A double vertical line.
pub const DOUBLE_VERTICAL: Set<'static> = Set {
    track: "║",
    thumb: "█",
    begin: "▲",
    end: "▼",
};

/// A double horizontal line.
pub const DOUBLE_HORIZONTAL: Set<'static> = Set {
    track: "═",
    thumb: "█",
    begin: "◄",
    end: "►",
};

/// A light vertical line.
pub const VERTICAL: Set<'static> = Set {
    track: "│",
    thumb: "█",
    begin: "↑",
    end: "↓",
};

/// A light horizontal line.
pub const HORIZONTAL: Set<'static> = Set {
    track: "─",
    thumb: "█",
    begin: "←",
    end: "→",
};

// Each constant is what the table of symbols says.
fn sets() -> [Set<'static>; 4]
    ensures { map scrollbar_data result ≡ scrollbar_sets }
{
    [DOUBLE_VERTICAL, DOUBLE_HORIZONTAL, VERTICAL, HORIZONTAL]
}
