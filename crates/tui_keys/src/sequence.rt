//! A sequence: ESC [, numbers with semicolons between them, and a last byte.

ghost use Rattle.std.specs.Prelude.{◌≡◌};
ghost use Rattle.tui_keys.specs.Steps.{in_sequence, is_mark, marked, more, no_numbers, sequence_of, with_digit, with_next};

use crate::event::Event;
use crate::ground::{broken_by, one, waits};
use crate::keys::{Decoded, Numbers, Pending};
use crate::meaning::{letter, size_of, tilde};

/// Before the first number.
#[inline]
pub(crate) fn no_numbers() -> Numbers
    ensures { result ≡ no_numbers }
{
    Numbers {
        first: 0,
        second: 0,
        third: 0,
        place: 0,
        is_plain: true,
    }
}

/// A byte of a sequence that is this event if it has only this number, before a tilde.
#[tactic(auto, unfolding(crate::specs::Steps::marked))]
pub(crate) fn marked(number: u16, event: Event, numbers: Numbers, byte: u8) -> Decoded
    ensures { result ≡ marked number event numbers byte }
{
    if is_mark(number, numbers, byte) {
        one(event)
    } else {
        in_sequence(numbers, byte)
    }
}

#[inline]
fn is_mark(number: u16, numbers: Numbers, byte: u8) -> bool
    ensures { result ≡ is_mark number numbers byte }
{
    byte == b'~' && numbers.is_plain && numbers.place == 0 && numbers.first == number
}

/// Digits and semicolons form numbers, and a byte from `@` to `~` ends the sequence.
#[tactic(auto, unfolding(crate::specs::Steps::in_sequence))]
pub(crate) fn in_sequence(numbers: Numbers, byte: u8) -> Decoded
    ensures { result ≡ in_sequence numbers byte }
{
    match byte {
        b'0'..=b'9' => waits(Pending::Sequence(with_digit(numbers, byte - b'0'))),
        b';' => waits(Pending::Sequence(with_next(numbers))),
        b' '..=b'?' => waits(Pending::Sequence(Numbers {
            is_plain: false,
            ..numbers
        })),
        b'@'..=b'~' => one(sequence_of(numbers, byte)),
        _ => broken_by(Event::Unknown, byte),
    }
}

/// A number with one more digit, saturating at 65535.
#[inline]
fn more(number: u16, digit: u8) -> u16
    ensures { result ≡ more number digit }
{
    (u32::from(number) * 10 + u32::from(digit)).min(65535) as u16
}

#[tactic(auto, unfolding(crate::specs::Steps::with_digit))]
fn with_digit(numbers: Numbers, digit: u8) -> Numbers
    ensures { result ≡ with_digit numbers digit }
{
    match numbers.place {
        0 => Numbers {
            first: more(numbers.first, digit),
            ..numbers
        },
        1 => Numbers {
            second: more(numbers.second, digit),
            ..numbers
        },
        2 => Numbers {
            third: more(numbers.third, digit),
            ..numbers
        },
        _ => numbers,
    }
}

#[tactic(auto, unfolding(crate::specs::Steps::with_next))]
fn with_next(numbers: Numbers) -> Numbers
    ensures { result ≡ with_next numbers }
{
    if numbers.place < 3 {
        Numbers {
            place: numbers.place + 1,
            ..numbers
        }
    } else {
        numbers
    }
}

/// The event of a whole sequence. A key has at most two numbers, of which the second encodes its modifiers.
/// Before a letter the first number is 1 or left out.
#[tactic(auto, unfolding(crate::specs::Steps::sequence_of))]
fn sequence_of(numbers: Numbers, last: u8) -> Event
    ensures { result ≡ sequence_of numbers last }
{
    if !numbers.is_plain {
        return Event::Unknown;
    }
    match last {
        b't' => size_of(numbers),
        b'~' if numbers.place <= 1 => tilde(numbers.second, numbers.first),
        _ if numbers.place <= 1 && numbers.first <= 1 => letter(numbers.second, last),
        _ => Event::Unknown,
    }
}
