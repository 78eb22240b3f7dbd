//! What sequences mean.

ghost use Rattle.std.specs.Prelude.{◌≡◌};
ghost use Rattle.tui_keys.specs.Steps.{is_size, letter, modifiers_of, moved, plain, size_of, tilde};

use crate::event::{Event, Modifiers, Motion};
use crate::keys::Numbers;

/// The first number of ESC [ 8 ; rows ; columns t, which reports a size.
const SIZE: u16 = 8;

/// The modifiers of xterm's number: subtract 1, then 1 is Shift, 2 is Alt, 4 is Ctrl. The other
/// bits are ignored.
#[tactic(auto, unfolding(crate::specs::Steps::modifiers_of))]
fn modifiers_of(number: u16) -> Modifiers
    ensures { result ≡ modifiers_of number }
{
    let sum = number.saturating_sub(1);
    Modifiers {
        shift: sum % 2 == 1,
        alt: sum / 2 % 2 == 1,
        ctrl: sum / 4 % 2 == 1,
    }
}

/// A motion without modifiers.
fn plain(motion: Motion) -> Event
    ensures { result ≡ plain motion }
{
    match motion {
        Motion::Up => Event::Up,
        Motion::Down => Event::Down,
        Motion::Left => Event::Left,
        Motion::Right => Event::Right,
        Motion::Home => Event::Home,
        Motion::End => Event::End,
    }
}

/// A motion with its modifiers, if there are any.
#[tactic(auto, unfolding(crate::specs::Steps::moved))]
fn moved(number: u16, motion: Motion) -> Event
    ensures { result ≡ moved number motion }
{
    let modifiers = modifiers_of(number);
    if modifiers.shift || modifiers.alt || modifiers.ctrl {
        Event::With(modifiers, motion)
    } else {
        plain(motion)
    }
}

/// The key of the last byte of a sequence, with the number of its modifiers.
#[tactic(auto, unfolding(crate::specs::Steps::letter))]
pub(crate) fn letter(number: u16, last: u8) -> Event
    ensures { result ≡ letter number last }
{
    match last {
        b'A' => moved(number, Motion::Up),
        b'B' => moved(number, Motion::Down),
        b'C' => moved(number, Motion::Right),
        b'D' => moved(number, Motion::Left),
        b'F' => moved(number, Motion::End),
        b'H' => moved(number, Motion::Home),
        b'P' => Event::F(1),
        b'Q' => Event::F(2),
        b'R' => Event::F(3),
        b'S' => Event::F(4),
        b'Z' => Event::BackTab,
        _ => Event::Unknown,
    }
}

/// The key of a first number before a tilde, with the number of its modifiers.
#[tactic(auto, unfolding(crate::specs::Steps::tilde))]
pub(crate) fn tilde(number: u16, key: u16) -> Event
    ensures { result ≡ tilde number key }
{
    match key {
        1 | 7 => moved(number, Motion::Home),
        2 => Event::Insert,
        3 => Event::Delete,
        4 | 8 => moved(number, Motion::End),
        5 => Event::PageUp,
        6 => Event::PageDown,
        11 => Event::F(1),
        12 => Event::F(2),
        13 => Event::F(3),
        14 => Event::F(4),
        15 => Event::F(5),
        17 => Event::F(6),
        18 => Event::F(7),
        19 => Event::F(8),
        20 => Event::F(9),
        21 => Event::F(10),
        23 => Event::F(11),
        24 => Event::F(12),
        _ => Event::Unknown,
    }
}

/// A size: ESC [ 8 ; rows ; columns t.
#[tactic(auto, unfolding(crate::specs::Steps::size_of))]
pub(crate) fn size_of(numbers: Numbers) -> Event
    ensures { result ≡ size_of numbers }
{
    if numbers.first == SIZE
        && numbers.place == 2
        && is_size(numbers.second)
        && is_size(numbers.third)
    {
        Event::Resize(numbers.third, numbers.second)
    } else {
        Event::Unknown
    }
}

fn is_size(number: u16) -> bool
    ensures { result ≡ is_size number }
{
    matches!(number, 1..=1000)
}
