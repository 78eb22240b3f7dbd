//! Characters of several bytes in UTF-8.

ghost use Rattle.std.specs.Prelude.{◌≡◌};
ghost use Rattle.tui_keys.specs.Steps.{character_of, in_character, character_event};

use crate::event::Event;
use crate::ground::{broken_by, one, waits};
use crate::keys::{Decoded, PartialCharacter, Pending};

/// A byte after the first one.
#[tactic(auto, unfolding(crate::specs::Steps::in_character))]
pub(crate) fn in_character(partial: PartialCharacter, byte: u8) -> Decoded
    ensures { result ≡ in_character partial byte }
{
    match byte {
        0x80..=0xbf => {
            // The bytes before the last one hold at most 15 bits, so the remainder loses nothing.
            let code = partial.code % 0x8000 * 64 + u32::from(byte - 0x80);
            if partial.left < 2 {
                one(character_of(partial.alt, partial.least, code))
            } else {
                waits(Pending::Character(PartialCharacter {
                    alt: partial.alt,
                    left: partial.left - 1,
                    least: partial.least,
                    code,
                }))
            }
        }
        _ => broken_by(Event::Unknown, byte),
    }
}

/// The character with this code, or `Unknown` if the encoding is overlong or the code is no character.
#[tactic(auto, unfolding(crate::specs::Steps::character_of))]
fn character_of(alt: bool, least: u32, code: u32) -> Event
    ensures { result ≡ character_of alt least code }
{
    if code < least {
        return Event::Unknown;
    }
    match char::from_u32(code) {
        Some(character) => character_event(alt, character),
        None => Event::Unknown,
    }
}

/// A character as an event, with ESC before it (`alt`) or not.
#[inline]
fn character_event(alt: bool, character: char) -> Event
    ensures { result ≡ character_event alt character }
{
    if alt {
        Event::Alt(character)
    } else {
        Event::Char(character)
    }
}
