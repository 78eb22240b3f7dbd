//! Converting colours to the depth of a terminal.

ghost use Rattle.std.specs.Prelude.{◌≡◌};
ghost use Rattle.tui_terminal.specs.Shades.{channels_of};
ghost use Rattle.tui_terminal_model.specs.Colours.{color_at, nearest_in_palette, nearest_named, palette_color, sixteen_color};

use crate::palette::{channels_at, grays, named_at, names, nearest_in_cube};
use crate::shade::{Channels, nearest};
use tui_cells::Color;
use tui_terminal_model::Depth;

/// Converts a colour to a depth.
#[tactic(auto, unfolding(tui_terminal_model::specs::Colours::color_at))]
pub(crate) fn color_at(depth: Depth, color: Color) -> Color
    ensures { result ≡ color_at depth color }
{
    match depth {
        Depth::None => Color::Reset,
        Depth::Sixteen => sixteen_color(color),
        Depth::Palette => palette_color(color),
        Depth::True => color,
    }
}

#[tactic(auto, unfolding(tui_terminal_model::specs::Colours::palette_color))]
fn palette_color(color: Color) -> Color
    ensures { result ≡ palette_color color }
{
    match color {
        Color::Rgb(red, green, blue) => nearest_in_palette(Channels { red, green, blue }),
        _ => color,
    }
}

#[tactic(auto, unfolding(tui_terminal_model::specs::Colours::sixteen_color))]
fn sixteen_color(color: Color) -> Color
    ensures { result ≡ sixteen_color color }
{
    match color {
        Color::Rgb(red, green, blue) => nearest_named(Channels { red, green, blue }),
        Color::Indexed(n) => sixteen_of_palette(n),
        _ => color,
    }
}

#[tactic(auto, unfolding(tui_terminal_model::specs::Colours::sixteen_color))]
fn sixteen_of_palette(n: u8) -> Color
    ensures { result ≡ sixteen_color (Color.Indexed n) }
{
    if n < 16 {
        named_at(n)
    } else {
        nearest_named(channels_at(n))
    }
}

fn nearest_named(channels: Channels) -> Color
    ensures { result ≡ nearest_named (channels_of channels) }
{
    let names = names();
    nearest(channels, names[0], &names[1..]).color
}

fn nearest_in_palette(channels: Channels) -> Color
    ensures { result ≡ (nearest_in_palette (channels_of channels)).color }
{
    nearest(channels, nearest_in_cube(channels), grays()).color
}
