//! Colours by red, green and blue, and finding the nearest of some.

ghost use Rattle.std.specs.Prelude.{◌≡◌, ◌+◌, ◌<◌, ◌≤◌};
ghost use Rattle.tui_terminal.specs.Shades.{all_named, channels_of, named_of};
ghost use Rattle.tui_terminal_model.specs.Colours.{distance, gap, nearer, nearest_of, square};

use tui_cells::Color;

/// Red, green and blue of a colour.
#[derive(Clone, Copy)]
pub(crate) struct Channels {
    pub(crate) red: u8,
    pub(crate) green: u8,
    pub(crate) blue: u8,
}

/// A colour as it is sent, and its red, green and blue values.
#[derive(Clone, Copy)]
pub(crate) struct Shade {
    pub(crate) color: Color,
    pub(crate) channels: Channels,
}

/// Returns the nearest of some colours, by the sum of the squares of the differences, or the first of several
/// that are as near.
pub(crate) fn nearest(channels: Channels, first: Shade, others: &[Shade]) -> Shade
    ensures { named_of result ≡ nearest_of (channels_of channels) (named_of first) (all_named others.now) }
{
    let mut best = first;
    'others: for place in 0..others.len() {
        best = nearer(channels, best, others[place]);
    }
    best
}

// The nearer of two, or the first if both are as near.
fn nearer(channels: Channels, first: Shade, second: Shade) -> Shade
    ensures { named_of result ≡ nearer (channels_of channels) (named_of first) (named_of second) }
{
    if distance(channels, first.channels) <= distance(channels, second.channels) {
        first
    } else {
        second
    }
}

#[tactic(auto, unfolding(tui_terminal_model::specs::Colours::distance))]
fn distance(first: Channels, second: Channels) -> u32
    ensures { result ≡ distance (channels_of first) (channels_of second) }
{
    let red = square_between(first.red, second.red);
    let green = square_between(first.green, second.green);
    red + (green + square_between(first.blue, second.blue))
}

fn square_between(first: u8, second: u8) -> u32
    ensures is { result ≡ square (gap first second) }
    ensures within { result < 65536 }
{
    let difference = u32::from(first.abs_diff(second));
    difference * difference
}
