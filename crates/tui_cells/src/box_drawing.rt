//! The characters of the Unicode block Box Drawing, U+2500 to U+257F, by their arms.

ghost use Rattle.std.specs.Prelude.{◌≡◌, map, option_map};
ghost use Rattle.tui_cells.specs.BoxDrawing.{known_arms, plain_arms, plain_with};
ghost use Rattle.tui_cells.specs.Chart.{drawn_arms, place_in_chart, plain_drawn, symbols_by_arms};

use crate::arms::{Arm, Arms};

/// What a string counts as when border symbols are joined.
#[derive(Clone, Copy, Debug, PartialEq, Eq, Hash)]
pub(crate) enum Drawn {
    /// A plain symbol.
    Plain(Arms),
    /// A dashed or rounded symbol, with the arms of the plain symbol that it counts as.
    LikePlain(Arms),
    /// Not a border symbol.
    Other,
}

impl Drawn {
    pub(crate) fn plain(self) -> Option<Arms>
        ensures { result ≡ plain_drawn self }
    {
        match self {
            Drawn::Plain(arms) => Some(arms),
            _ => None,
        }
    }

    pub(crate) fn arms(self) -> Option<Arms>
        ensures { result ≡ drawn_arms self }
    {
        match self {
            Drawn::Plain(arms) | Drawn::LikePlain(arms) => Some(arms),
            Drawn::Other => None,
        }
    }
}

pub(crate) fn drawn_as(symbol: &str) -> Drawn
    ensures plain { plain_drawn result ≡ plain_arms symbol.now }
    ensures known { drawn_arms result ≡ known_arms symbol.now }
{
    match place_in_chart(symbol) {
        Some(place) => chart()[place as usize],
        None => Drawn::Other,
    }
}

fn chart() -> &'static [Drawn]
    ensures { result.now ≡ CHART }
{
    &CHART
}

/// Returns the index of a character in the block, or `None` if the string is not one of its characters.
fn place_in_chart(symbol: &str) -> Option<u8>
    ensures { result ≡ place_in_chart symbol.now }
{
    match symbol.as_bytes() {
        [0xE2, 0x94, low @ 0x80..=0xBF] => Some(*low - 0x80),
        [0xE2, 0x95, low @ 0x80..=0xBF] => Some(*low - 0x40),
        _ => None,
    }
}

/// Returns the plain symbol with these arms, if there is one.
pub(crate) fn symbol_with(arms: Arms) -> Option<&'static str>
    ensures { option_map (λ s. s.now) result ≡ plain_with arms }
{
    let symbol = symbols_by_arms()[arms.number()];
    if symbol.is_empty() {
        None
    } else {
        Some(symbol)
    }
}

/// Returns the plain symbols, indexed by the number of their arms. An entry is empty if there is no such symbol.
fn symbols_by_arms() -> &'static [&'static str]
    ensures { map (λ s. s.now) result.now ≡ symbols_by_arms }
{
    &SYMBOLS
}

macro_rules! arm {
    (-) => { Arm::Empty };
    (light) => { Arm::Light };
    (heavy) => { Arm::Heavy };
    (double) => { Arm::Double };
}

// A plain symbol is written as its arms up, right, down and left in brackets, a dashed or rounded one in parentheses.
macro_rules! drawn {
    ([$up:tt $right:tt $down:tt $left:tt]) => {
        Drawn::Plain(Arms { up: arm!($up), right: arm!($right), down: arm!($down), left: arm!($left) })
    };
    (($up:tt $right:tt $down:tt $left:tt)) => {
        Drawn::LikePlain(Arms { up: arm!($up), right: arm!($right), down: arm!($down), left: arm!($left) })
    };
    (other) => { Drawn::Other };
}

macro_rules! chart {
    ($($entry:tt)*) => { [$(drawn!($entry)),*] };
}

#[rattlefmt::skip]
static CHART: [Drawn; 128] = chart! {
    [- light - light] [- heavy - heavy] [light - light -] [heavy - heavy -] // ─ ━ │ ┃
    (- light - light) (- heavy - heavy) (light - light -) (heavy - heavy -) // ┄ ┅ ┆ ┇
    (- light - light) (- heavy - heavy) (light - light -) (heavy - heavy -) // ┈ ┉ ┊ ┋
    [- light light -] [- heavy light -] [- light heavy -] [- heavy heavy -] // ┌ ┍ ┎ ┏
    [- - light light] [- - light heavy] [- - heavy light] [- - heavy heavy] // ┐ ┑ ┒ ┓
    [light light - -] [light heavy - -] [heavy light - -] [heavy heavy - -] // └ ┕ ┖ ┗
    [light - - light] [light - - heavy] [heavy - - light] [heavy - - heavy] // ┘ ┙ ┚ ┛
    [light light light -] [light heavy light -] [heavy light light -] [light light heavy -] // ├ ┝ ┞ ┟
    [heavy light heavy -] [heavy heavy light -] [light heavy heavy -] [heavy heavy heavy -] // ┠ ┡ ┢ ┣
    [light - light light] [light - light heavy] [heavy - light light] [light - heavy light] // ┤ ┥ ┦ ┧
    [heavy - heavy light] [heavy - light heavy] [light - heavy heavy] [heavy - heavy heavy] // ┨ ┩ ┪ ┫
    [- light light light] [- light light heavy] [- heavy light light] [- heavy light heavy] // ┬ ┭ ┮ ┯
    [- light heavy light] [- light heavy heavy] [- heavy heavy light] [- heavy heavy heavy] // ┰ ┱ ┲ ┳
    [light light - light] [light light - heavy] [light heavy - light] [light heavy - heavy] // ┴ ┵ ┶ ┷
    [heavy light - light] [heavy light - heavy] [heavy heavy - light] [heavy heavy - heavy] // ┸ ┹ ┺ ┻
    [light light light light] [light light light heavy] [light heavy light light] [light heavy light heavy] // ┼ ┽ ┾ ┿
    [heavy light light light] [light light heavy light] [heavy light heavy light] [heavy light light heavy] // ╀ ╁ ╂ ╃
    [heavy heavy light light] [light light heavy heavy] [light heavy heavy light] [heavy heavy light heavy] // ╄ ╅ ╆ ╇
    [light heavy heavy heavy] [heavy light heavy heavy] [heavy heavy heavy light] [heavy heavy heavy heavy] // ╈ ╉ ╊ ╋
    (- light - light) (- heavy - heavy) (light - light -) (heavy - heavy -) // ╌ ╍ ╎ ╏
    [- double - double] [double - double -] [- double light -] [- light double -] // ═ ║ ╒ ╓
    [- double double -] [- - light double] [- - double light] [- - double double] // ╔ ╕ ╖ ╗
    [light double - -] [double light - -] [double double - -] [light - - double] // ╘ ╙ ╚ ╛
    [double - - light] [double - - double] [light double light -] [double light double -] // ╜ ╝ ╞ ╟
    [double double double -] [light - light double] [double - double light] [double - double double] // ╠ ╡ ╢ ╣
    [- double light double] [- light double light] [- double double double] [light double - double] // ╤ ╥ ╦ ╧
    [double light - light] [double double - double] [light double light double] [double light double light] // ╨ ╩ ╪ ╫
    [double double double double] (- light light -) (- - light light) (light - - light) // ╬ ╭ ╮ ╯
    (light light - -) other other other // ╰ ╱ ╲ ╳
    [- - - light] [light - - -] [- light - -] [- - light -] // ╴ ╵ ╶ ╷
    [- - - heavy] [heavy - - -] [- heavy - -] [- - heavy -] // ╸ ╹ ╺ ╻
    [- heavy - light] [light - heavy -] [- light - heavy] [heavy - light -] // ╼ ╽ ╾ ╿
};

// One row for each pair of arms up and right, one column for each pair of arms down and left.
#[rattlefmt::skip]
static SYMBOLS: [&str; 256] = [
    "", "╴", "╸", "", "╷", "┐", "┑", "╕", "╻", "┒", "┓", "", "", "╖", "", "╗",
    "╶", "─", "╾", "", "┌", "┬", "┭", "", "┎", "┰", "┱", "", "╓", "╥", "", "",
    "╺", "╼", "━", "", "┍", "┮", "┯", "", "┏", "┲", "┳", "", "", "", "", "",
    "", "", "", "═", "╒", "", "", "╤", "", "", "", "", "╔", "", "", "╦",
    "╵", "┘", "┙", "╛", "│", "┤", "┥", "╡", "╽", "┧", "┪", "", "", "", "", "",
    "└", "┴", "┵", "", "├", "┼", "┽", "", "┟", "╁", "╅", "", "", "", "", "",
    "┕", "┶", "┷", "", "┝", "┾", "┿", "", "┢", "╆", "╈", "", "", "", "", "",
    "╘", "", "", "╧", "╞", "", "", "╪", "", "", "", "", "", "", "", "",
    "╹", "┚", "┛", "", "╿", "┦", "┩", "", "┃", "┨", "┫", "", "", "", "", "",
    "┖", "┸", "┹", "", "┞", "╀", "╃", "", "┠", "╂", "╉", "", "", "", "", "",
    "┗", "┺", "┻", "", "┡", "╄", "╇", "", "┣", "╊", "╋", "", "", "", "", "",
    "", "", "", "", "", "", "", "", "", "", "", "", "", "", "", "",
    "", "╜", "", "╝", "", "", "", "", "", "", "", "", "║", "╢", "", "╣",
    "╙", "╨", "", "", "", "", "", "", "", "", "", "", "╟", "╫", "", "",
    "", "", "", "", "", "", "", "", "", "", "", "", "", "", "", "",
    "╚", "", "", "╩", "", "", "", "", "", "", "", "", "╠", "", "", "╬",
];
