//! Bytes within a paste.

ghost use Rattle.std.specs.Prelude.{◌≡◌, None, Some};
ghost use Rattle.std.specs.Option.{option_map};
ghost use Rattle.tui_keys.specs.Steps.{after_pasted_escape, in_paste, is_end, pasted, pasted_event};

use crate::event::Event;
use crate::ground::{broken_by, one, waits};
use crate::keys::{Decoded, KeyDecoder, Pending, typed};
use crate::sequence::marked;

/// The number of ESC [ 201 ~, which ends a paste.
const PASTE_END: u16 = 201;

/// The step at a byte within a paste, before its events are converted. It is as outside a paste, with two
/// exceptions: only ESC [ begins a sequence, and a sequence may end the paste.
pub(crate) fn in_paste(pending: Pending, byte: u8) -> Decoded
    ensures { result ≡ in_paste pending byte }
{
    match pending {
        Pending::Escape => after_pasted_escape(byte),
        Pending::Sequence(numbers) => marked(PASTE_END, Event::PasteEnd, numbers, byte),
        _ => typed(pending, byte),
    }
}

#[tactic(auto, unfolding(crate::specs::Steps::after_pasted_escape))]
fn after_pasted_escape(byte: u8) -> Decoded
    ensures { result ≡ after_pasted_escape byte }
{
    match byte {
        b'[' => waits(Pending::Bracket),
        b' '..=b'~' => one(Event::Unknown),
        _ => broken_by(Event::Unknown, byte),
    }
}

/// Converts a step to one within a paste.
pub(crate) fn pasted(step: Decoded) -> Decoded
    ensures { result ≡ pasted step }
{
    Decoded {
        keys: KeyDecoder {
            pasting: !is_end(step.second),
            pending: step.keys.pending,
        },
        first: step.first.map(pasted_event),
        second: step.second.map(pasted_event),
    }
}

fn is_end(event: Option<Event>) -> bool
    ensures { result ≡ is_end event }
{
    matches!(event, Some(Event::PasteEnd))
}

/// An event as it is within a paste: a character, the end of the paste, or unknown.
fn pasted_event(event: Event) -> Event
    ensures { result ≡ pasted_event event }
{
    match event {
        Event::Char(character) => Event::Char(character),
        Event::Enter => Event::Char('\n'),
        Event::Tab => Event::Char('\t'),
        Event::PasteEnd => Event::PasteEnd,
        _ => Event::Unknown,
    }
}
