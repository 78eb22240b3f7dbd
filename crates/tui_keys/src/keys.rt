//! An incremental decoder of terminal input.

ghost use Rattle.std.specs.Prelude.{◌≡◌};
ghost use Rattle.tui_keys.specs.Steps.{nul, paused, start, unchanged, stepped, typed};

use crate::character::in_character;
use crate::escape::{after_bracket, after_escape, after_ss3, ends_answer, in_answer, in_console};
use crate::event::Event;
use crate::ground::{ground, one};
use crate::paste::{in_paste, pasted};
use crate::sequence::marked;

/// The number of ESC [ 200 ~, which begins a paste.
const PASTE_BEGIN: u16 = 200;

/// The state of a decoder after the bytes so far. It is small and `Copy`, and the decoder never allocates.
#[derive(Clone, Copy, Debug, PartialEq, Eq)]
pub struct KeyDecoder {
    /// Whether the input is within a paste.
    pub pasting: bool,
    /// What has begun and is not complete.
    pub pending: Pending,
}

/// What has begun and is not complete.
#[derive(Clone, Copy, Debug, PartialEq, Eq)]
pub enum Pending {
    Nothing,
    /// ESC.
    Escape,
    /// ESC [.
    Bracket,
    /// ESC O.
    Ss3,
    /// ESC [ [, with which the Linux console begins F1 to F5.
    Console,
    /// ESC [ and what follows, without the last byte.
    Sequence(Numbers),
    /// ESC and one of ] P X ^ _. This begins a reply to a query of another program, or is Alt
    /// with this character.
    Opened(u8),
    /// Within such a reply.
    Answer,
    /// An ESC within the reply.
    AnswerEscape,
    /// The first bytes of a character.
    Character(PartialCharacter),
}

/// The first three numbers of a sequence, at most 65535 each; the number of semicolons so far, at most 3; and
/// whether there was nothing else.
#[derive(Clone, Copy, Debug, PartialEq, Eq)]
pub struct Numbers {
    pub first: u16,
    pub second: u16,
    pub third: u16,
    pub place: u8,
    pub is_plain: bool,
}

/// A character that is not complete: whether ESC came before it, the number of bytes that are left, the least
/// code that needs this many bytes, and the code so far.
#[derive(Clone, Copy, Debug, PartialEq, Eq)]
pub struct PartialCharacter {
    pub alt: bool,
    pub left: u8,
    pub least: u32,
    pub code: u32,
}

/// The result of one byte: the next state, and up to two events in order.
#[derive(Clone, Copy, Debug, PartialEq, Eq)]
pub struct Decoded {
    pub keys: KeyDecoder,
    pub first: Option<Event>,
    pub second: Option<Event>,
}

impl KeyDecoder {
    /// Creates a decoder, before the first byte.
    pub fn new() -> KeyDecoder
        ensures { result ≡ start }
    {
        KeyDecoder {
            pasting: false,
            pending: Pending::Nothing,
        }
    }

    /// Takes one byte.
    #[tactic(auto, unfolding(crate::specs::Steps::stepped))]
    pub fn step(self, byte: u8) -> Decoded
        ensures { result ≡ stepped self byte }
    {
        if byte == b'\0' {
            nul(self)
        } else if self.pasting {
            pasted(in_paste(self.pending, byte))
        } else {
            typed(self.pending, byte)
        }
    }

    /// Handles the end of a short read, after which nothing more has come yet. A lone ESC is the Esc key, and
    /// ESC with one of ] P X ^ _ is Alt with this character. Anything else that has begun stays pending.
    /// Within a paste nothing changes.
    pub fn pause(self) -> Decoded
        ensures { result ≡ paused self }
    {
        if self.pasting {
            return unchanged(self);
        }
        match self.pending {
            Pending::Escape => one(Event::Esc),
            Pending::Opened(opener) => one(Event::Alt(char::from(opener))),
            _ => unchanged(self),
        }
    }
}

/// No event, and no change.
fn unchanged(keys: KeyDecoder) -> Decoded
    ensures { result ≡ unchanged keys }
{
    Decoded {
        keys,
        first: None,
        second: None,
    }
}

/// The byte 0 does not interrupt a pending sequence or character.
fn nul(keys: KeyDecoder) -> Decoded
    ensures { result ≡ nul keys }
{
    Decoded {
        keys,
        first: None,
        second: Some(if keys.pasting {
            Event::Unknown
        } else {
            Event::Tick
        }),
    }
}

/// A byte outside a paste.
pub(crate) fn typed(pending: Pending, byte: u8) -> Decoded
    ensures { result ≡ typed pending byte }
{
    match pending {
        Pending::Nothing => ground(byte),
        Pending::Escape => after_escape(byte),
        Pending::Bracket => after_bracket(byte),
        Pending::Ss3 => after_ss3(byte),
        Pending::Console => in_console(byte),
        Pending::Sequence(numbers) => marked(PASTE_BEGIN, Event::PasteBegin, numbers, byte),
        Pending::Opened(_) => in_answer(byte),
        Pending::Answer => in_answer(byte),
        Pending::AnswerEscape => ends_answer(byte),
        Pending::Character(partial) => in_character(partial, byte),
    }
}
