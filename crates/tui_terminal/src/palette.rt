//! The colours of a terminal's palette, as xterm has them by default.

ghost use Rattle.std.specs.Prelude.{◌≡◌, ◌<◌, ◌≤◌, ◌∷◌};
ghost use Rattle.tui_terminal.specs.Shades.{all_named, channels_of, named_of};
ghost use Rattle.tui_terminal_model.specs.Colours.{black, cube_color, cube_channels, gray_channels, grays, level, level_at, channels_at, named_at, nearest_in_cube, other_names};

use crate::shade::{Channels, Shade};
use tui_cells::Color;

macro_rules! shades {
    ($($color:expr => $red:literal $green:literal $blue:literal,)*) => {
        [$(Shade { color: $color, channels: Channels { red: $red, green: $green, blue: $blue } }),*]
    };
}

// The first sixteen colours.
#[rattlefmt::skip]
static NAMES: [Shade; 16] = shades! {
    Color::Black => 0 0 0,
    Color::Red => 205 0 0,
    Color::Green => 0 205 0,
    Color::Yellow => 205 205 0,
    Color::Blue => 0 0 238,
    Color::Magenta => 205 0 205,
    Color::Cyan => 0 205 205,
    Color::Gray => 229 229 229,
    Color::DarkGray => 127 127 127,
    Color::LightRed => 255 0 0,
    Color::LightGreen => 0 255 0,
    Color::LightYellow => 255 255 0,
    Color::LightBlue => 92 92 255,
    Color::LightMagenta => 255 0 255,
    Color::LightCyan => 0 255 255,
    Color::White => 255 255 255,
};

macro_rules! grays {
    ($($place:literal => $channels:literal,)*) => {
        [$(Shade { color: Color::Indexed($place), channels: Channels { red: $channels, green: $channels, blue: $channels } }),*]
    };
}

// The last 24 colours.
#[rattlefmt::skip]
static GRAYS: [Shade; 24] = grays! {
    232 => 8, 233 => 18, 234 => 28, 235 => 38, 236 => 48, 237 => 58, 238 => 68, 239 => 78,
    240 => 88, 241 => 98, 242 => 108, 243 => 118, 244 => 128, 245 => 138, 246 => 148, 247 => 158,
    248 => 168, 249 => 178, 250 => 188, 251 => 198, 252 => 208, 253 => 218, 254 => 228, 255 => 238,
};

/// The sixteen named colours, Black first.
#[tactic(auto, unfolding(tui_terminal_model::specs::Colours::other_names))]
pub(crate) fn names() -> &'static [Shade]
    ensures { all_named result.now ≡ black ∷ other_names }
{
    &NAMES
}

/// The grays, the darkest first.
#[tactic(auto, unfolding(tui_terminal_model::specs::Colours::grays, tui_terminal_model::specs::Colours::gray_channels))]
pub(crate) fn grays() -> &'static [Shade]
    ensures { all_named result.now ≡ grays }
{
    &GRAYS
}

/// Returns the nearest colour of the cube, level by level.
pub(crate) fn nearest_in_cube(channels: Channels) -> Shade
    ensures { named_of result ≡ nearest_in_cube (channels_of channels) }
{
    let red = level_at(channels.red);
    let green = level_at(channels.green);
    let blue = level_at(channels.blue);
    Shade {
        color: Color::Indexed(16 + (36 * red + (6 * green + blue))),
        channels: cube_channels(red, green, blue),
    }
}

#[tactic(auto, unfolding(tui_terminal_model::specs::Colours::cube_channels))]
fn cube_channels(red: u8, green: u8, blue: u8) -> Channels
    requires within { (red ≤ 5) × (green ≤ 5) × (blue ≤ 5) }
    ensures { channels_of result ≡ cube_channels red green blue }
{
    Channels {
        red: level(red),
        green: level(green),
        blue: level(blue),
    }
}

// The level of the cube that is nearest.
#[tactic(auto, unfolding(tui_terminal_model::specs::Colours::level_at))]
fn level_at(v: u8) -> u8
    ensures is { result ≡ level_at v }
    ensures within { result ≤ 5 }
{
    match v {
        0..=47 => 0,
        48..=114 => 1,
        115..=154 => 2,
        155..=194 => 3,
        195..=234 => 4,
        _ => 5,
    }
}

fn level(i: u8) -> u8
    requires { i ≤ 5 }
    ensures { result ≡ level i }
{
    if i > 0 { 55 + 40 * i } else { 0 }
}

/// Returns a named colour by its index.
pub(crate) fn named_at(n: u8) -> Color
    requires { n < 16 }
    ensures { result ≡ named_at n }
{
    names()[n as usize].color
}

/// Returns red, green and blue of a colour of the palette by its index.
#[tactic(auto, unfolding(tui_terminal_model::specs::Colours::gray_channels))]
pub(crate) fn channels_at(n: u8) -> Channels
    requires { 16 ≤ n }
    ensures { channels_of result ≡ channels_at n }
{
    if n < 232 {
        let place = n - 16;
        let row = place / 6;
        cube_channels(place / 36, row - place / 36 * 6, place - row * 6)
    } else {
        let channels = 8 + 10 * (n - 232);
        Channels {
            red: channels,
            green: channels,
            blue: channels,
        }
    }
}
