//! A byte after ESC, and within the sequences that begin with it, except for those with numbers.

ghost use Rattle.std.specs.Prelude.{◌≡◌};
ghost use Rattle.tui_keys.specs.Steps.{after_bracket, after_escape, after_ss3, console_key, ends_answer, in_answer, in_console, opens_answer};

use crate::bytes::{BELL, DELETE, ESCAPE};
use crate::event::Event;
use crate::ground::{broken_by, lead, one, waits};
use crate::keys::{Decoded, Pending};
use crate::meaning::letter;
use crate::sequence::{in_sequence, no_numbers};

/// After ESC.
#[tactic(auto, unfolding(crate::specs::Steps::after_escape))]
pub(crate) fn after_escape(byte: u8) -> Decoded
    ensures { result ≡ after_escape byte }
{
    match byte {
        b'[' => waits(Pending::Bracket),
        b'O' => waits(Pending::Ss3),
        _ if opens_answer(byte) => waits(Pending::Opened(byte)),
        b' '..=b'~' => one(Event::Alt(char::from(byte))),
        ..b' ' | DELETE => broken_by(Event::Esc, byte),
        _ => lead(true, byte),
    }
}

/// OSC, DCS, SOS, PM, APC.
fn opens_answer(byte: u8) -> bool
    ensures { result ≡ opens_answer byte }
{
    matches!(byte, b']' | b'P' | b'X' | b'^' | b'_')
}

/// After ESC [.
#[tactic(auto, unfolding(crate::specs::Steps::after_bracket))]
pub(crate) fn after_bracket(byte: u8) -> Decoded
    ensures { result ≡ after_bracket byte }
{
    if byte == b'[' {
        waits(Pending::Console)
    } else {
        in_sequence(no_numbers(), byte)
    }
}

/// After ESC O.
#[tactic(auto, unfolding(crate::specs::Steps::after_ss3))]
pub(crate) fn after_ss3(byte: u8) -> Decoded
    ensures { result ≡ after_ss3 byte }
{
    match byte {
        b' '..=b'~' => one(letter(0, byte)),
        _ => broken_by(Event::Unknown, byte),
    }
}

/// After ESC [ [.
#[tactic(auto, unfolding(crate::specs::Steps::in_console))]
pub(crate) fn in_console(byte: u8) -> Decoded
    ensures { result ≡ in_console byte }
{
    match byte {
        b' '..=b'~' => one(console_key(byte)),
        _ => broken_by(Event::Unknown, byte),
    }
}

#[tactic(auto, unfolding(crate::specs::Steps::console_key))]
fn console_key(byte: u8) -> Event
    ensures { result ≡ console_key byte }
{
    match byte {
        b'A'..=b'E' => Event::F(byte - b'A' + 1),
        _ => Event::Unknown,
    }
}

/// In a reply, up to BEL or ST.
#[tactic(auto, unfolding(crate::specs::Steps::in_answer))]
pub(crate) fn in_answer(byte: u8) -> Decoded
    ensures { result ≡ in_answer byte }
{
    match byte {
        BELL => waits(Pending::Nothing),
        ESCAPE => waits(Pending::AnswerEscape),
        _ => waits(Pending::Answer),
    }
}

/// After an ESC in a reply. It is the end (ST), or the reply was cut short and a new sequence begins.
#[tactic(auto, unfolding(crate::specs::Steps::ends_answer))]
pub(crate) fn ends_answer(byte: u8) -> Decoded
    ensures { result ≡ ends_answer byte }
{
    if byte == b'\\' {
        waits(Pending::Nothing)
    } else {
        after_escape(byte)
    }
}
