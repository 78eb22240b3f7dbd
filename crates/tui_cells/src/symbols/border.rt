//! The symbols of borders.

ghost use Rattle.std.specs.Prelude.{◌≡◌, map};
ghost use Rattle.tui_cells.specs.Symbols.{border_data, border_sets};

/// The symbols of the four corners and the four sides.
#[derive(Clone, Copy, Debug, PartialEq, Eq, Hash)]
pub struct Set<'a> {
    pub top_left: &'a str,
    pub top_right: &'a str,
    pub bottom_left: &'a str,
    pub bottom_right: &'a str,
    pub vertical_left: &'a str,
    pub vertical_right: &'a str,
    pub horizontal_top: &'a str,
    pub horizontal_bottom: &'a str,
}

/// Light lines.
pub const PLAIN: Set<'static> = Set {
    top_left: "┌",
    top_right: "┐",
    bottom_left: "└",
    bottom_right: "┘",
    vertical_left: "│",
    vertical_right: "│",
    horizontal_top: "─",
    horizontal_bottom: "─",
};

/// Light lines with rounded corners.
pub const ROUNDED: Set<'static> = Set {
    top_left: "╭",
    top_right: "╮",
    bottom_left: "╰",
    bottom_right: "╯",
    vertical_left: "│",
    vertical_right: "│",
    horizontal_top: "─",
    horizontal_bottom: "─",
};

/// Double lines.
pub const DOUBLE: Set<'static> = Set {
    top_left: "╔",
    top_right: "╗",
    bottom_left: "╚",
    bottom_right: "╝",
    vertical_left: "║",
    vertical_right: "║",
    horizontal_top: "═",
    horizontal_bottom: "═",
};

/// Heavy lines.
pub const THICK: Set<'static> = Set {
    top_left: "┏",
    top_right: "┓",
    bottom_left: "┗",
    bottom_right: "┛",
    vertical_left: "┃",
    vertical_right: "┃",
    horizontal_top: "━",
    horizontal_bottom: "━",
};

/// Light lines of two dashes a cell.
pub const LIGHT_DOUBLE_DASHED: Set<'static> = Set {
    top_left: "┌",
    top_right: "┐",
    bottom_left: "└",
    bottom_right: "┘",
    vertical_left: "╎",
    vertical_right: "╎",
    horizontal_top: "╌",
    horizontal_bottom: "╌",
};

/// Heavy lines of two dashes a cell.
pub const HEAVY_DOUBLE_DASHED: Set<'static> = Set {
    top_left: "┏",
    top_right: "┓",
    bottom_left: "┗",
    bottom_right: "┛",
    vertical_left: "╏",
    vertical_right: "╏",
    horizontal_top: "╍",
    horizontal_bottom: "╍",
};

/// Light lines of three dashes a cell.
pub const LIGHT_TRIPLE_DASHED: Set<'static> = Set {
    top_left: "┌",
    top_right: "┐",
    bottom_left: "└",
    bottom_right: "┘",
    vertical_left: "┆",
    vertical_right: "┆",
    horizontal_top: "┄",
    horizontal_bottom: "┄",
};

/// Heavy lines of three dashes a cell.
pub const HEAVY_TRIPLE_DASHED: Set<'static> = Set {
    top_left: "┏",
    top_right: "┓",
    bottom_left: "┗",
    bottom_right: "┛",
    vertical_left: "┇",
    vertical_right: "┇",
    horizontal_top: "┅",
    horizontal_bottom: "┅",
};

/// Light lines of four dashes a cell.
pub const LIGHT_QUADRUPLE_DASHED: Set<'static> = Set {
    top_left: "┌",
    top_right: "┐",
    bottom_left: "└",
    bottom_right: "┘",
    vertical_left: "┊",
    vertical_right: "┊",
    horizontal_top: "┈",
    horizontal_bottom: "┈",
};

/// Heavy lines of four dashes a cell.
pub const HEAVY_QUADRUPLE_DASHED: Set<'static> = Set {
    top_left: "┏",
    top_right: "┓",
    bottom_left: "┗",
    bottom_right: "┛",
    vertical_left: "┋",
    vertical_right: "┋",
    horizontal_top: "┉",
    horizontal_bottom: "┉",
};

/// Half blocks on the inner side of each cell.
pub const QUADRANT_INSIDE: Set<'static> = Set {
    top_left: "▗",
    top_right: "▖",
    bottom_left: "▝",
    bottom_right: "▘",
    vertical_left: "▐",
    vertical_right: "▌",
    horizontal_top: "▄",
    horizontal_bottom: "▀",
};

/// Half blocks on the outer side of each cell.
pub const QUADRANT_OUTSIDE: Set<'static> = Set {
    top_left: "▛",
    top_right: "▜",
    bottom_left: "▙",
    bottom_right: "▟",
    vertical_left: "▌",
    vertical_right: "▐",
    horizontal_top: "▀",
    horizontal_bottom: "▄",
};

// Each constant is what the table of symbols says.
fn sets() -> [Set<'static>; 12]
    ensures { map border_data result ≡ border_sets }
{
    [
        PLAIN,
        ROUNDED,
        DOUBLE,
        THICK,
        LIGHT_DOUBLE_DASHED,
        HEAVY_DOUBLE_DASHED,
        LIGHT_TRIPLE_DASHED,
        HEAVY_TRIPLE_DASHED,
        LIGHT_QUADRUPLE_DASHED,
        HEAVY_QUADRUPLE_DASHED,
        QUADRANT_INSIDE,
        QUADRANT_OUTSIDE,
    ]
}
