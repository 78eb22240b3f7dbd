//! Bars that fill a cell from below, in eighths.

ghost use Rattle.std.specs.Prelude.{◌≡◌, map};
ghost use Rattle.tui_cells.specs.Symbols.{bar_data, bar_sets};

/// The symbols of a partly filled cell.
#[derive(Clone, Copy, Debug, PartialEq, Eq, Hash)]
pub struct Set<'a> {
    pub full: &'a str,
    pub seven_eighths: &'a str,
    pub three_quarters: &'a str,
    pub five_eighths: &'a str,
    pub half: &'a str,
    pub three_eighths: &'a str,
    pub one_quarter: &'a str,
    pub one_eighth: &'a str,
    pub empty: &'a str,
}

/// A symbol for each eighth of a cell.
pub const NINE_LEVELS: Set<'static> = Set {
    full: "█",
    seven_eighths: "▇",
    three_quarters: "▆",
    five_eighths: "▅",
    half: "▄",
    three_eighths: "▃",
    one_quarter: "▂",
    one_eighth: "▁",
    empty: " ",
};

/// Full, half and empty cells only.
pub const THREE_LEVELS: Set<'static> = Set {
    full: "█",
    seven_eighths: "█",
    three_quarters: "▄",
    five_eighths: "▄",
    half: "▄",
    three_eighths: "▄",
    one_quarter: "▄",
    one_eighth: " ",
    empty: " ",
};

// Each constant is what the table of symbols says.
fn sets() -> [Set<'static>; 2]
    ensures { map bar_data result ≡ bar_sets }
{
    [NINE_LEVELS, THREE_LEVELS]
}
