//! The step at a byte if nothing is pending, and the basic steps that all others use.

ghost use Rattle.std.specs.Prelude.{◌≡◌, None, Some};
ghost use Rattle.tui_keys.specs.Steps.{ground, begins_paste, broken_by, lead, one, waits};

use crate::bytes::{BACKSPACE, DELETE, ESCAPE};
use crate::event::Event;
use crate::keys::{Decoded, KeyDecoder, PartialCharacter, Pending};

/// One event, and nothing is pending.
#[inline]
pub(crate) fn one(event: Event) -> Decoded
    ensures { result ≡ one event }
{
    Decoded {
        keys: KeyDecoder {
            pasting: begins_paste(event),
            pending: Pending::Nothing,
        },
        first: None,
        second: Some(event),
    }
}

#[inline]
fn begins_paste(event: Event) -> bool
    ensures { result ≡ begins_paste event }
{
    matches!(event, Event::PasteBegin)
}

/// No event yet.
#[inline]
pub(crate) fn waits(pending: Pending) -> Decoded
    ensures { result ≡ waits pending }
{
    Decoded {
        keys: KeyDecoder {
            pasting: false,
            pending,
        },
        first: None,
        second: None,
    }
}

/// An event for what was pending, and then what the byte yields by itself.
#[inline]
pub(crate) fn broken_by(event: Event, byte: u8) -> Decoded
    ensures { result ≡ broken_by event byte }
{
    Decoded {
        first: Some(event),
        ..ground(byte)
    }
}

/// The byte by itself. Ctrl with a letter sends the number of the letter in the alphabet. Of these, h is Backspace, i
/// is Tab, and j and m are Enter.
#[tactic(auto, unfolding(crate::specs::Steps::ground))]
pub(crate) fn ground(byte: u8) -> Decoded
    ensures { result ≡ ground byte }
{
    match byte {
        b'\t' => one(Event::Tab),
        b'\n' | b'\r' => one(Event::Enter),
        BACKSPACE | DELETE => one(Event::Backspace),
        ESCAPE => waits(Pending::Escape),
        ..ESCAPE => one(Event::Ctrl(char::from(b'a' - 1 + byte))),
        ..b' ' => one(Event::Unknown),
        b' '..=b'~' => one(Event::Char(char::from(byte))),
        _ => lead(false, byte),
    }
}

/// The first byte of a character of several bytes, with ESC before it (`alt`) or not.
#[tactic(auto, unfolding(crate::specs::Steps::lead))]
pub(crate) fn lead(alt: bool, byte: u8) -> Decoded
    ensures { result ≡ lead alt byte }
{
    match byte {
        0xc2..=0xdf => waits(partial(alt, 1, 0x80, byte - 0xc0)),
        0xe0..=0xef => waits(partial(alt, 2, 0x800, byte - 0xe0)),
        0xf0..=0xf4 => waits(partial(alt, 3, 0x10000, byte - 0xf0)),
        _ => one(Event::Unknown),
    }
}

#[inline]
fn partial(alt: bool, left: u8, least: u32, code: u8) -> Pending
    ensures { result ≡ Pending.Character (record { alt = alt; left = left; least = least; code = code }) }
{
    Pending::Character(PartialCharacter {
        alt,
        left,
        least,
        code: u32::from(code),
    })
}
