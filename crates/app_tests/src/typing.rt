//! Bytes that a terminal sends, and the text that they make on each side of the cursor, worked out by hand.

use std::alloc::Global;
use tui_cells::Mem;
use tui_input::InputState;
use tui_keys::{Event, KeyDecoder};

/// Bytes, and the text before and after the cursor. At most ten characters are taken.
const ROWS: [(&str, &str, &str); 15] = [
    // Left, Backspace, Delete, Home and End, by keys and by letters with Ctrl.
    ("abc\x1b[D\x7f", "a", "c"),
    ("abc\x1b[H\x1b[3~", "", "bc"),
    ("ab\x01c\x05d", "cabd", ""),
    ("ab\x1b[D\x1b[D\x1b[D\x1b[C\x1b[F\x1b[C", "ab", ""),
    // What is left of the cursor, what is right of it, and a word with the spaces after it.
    ("abcd\x1b[D\x1b[D\x15", "", "cd"),
    ("abcd\x1b[D\x0b", "abc", ""),
    ("one two  \x17", "one ", ""),
    // Enter, Tab and Esc are not for the input.
    ("a\r\t\x1b", "a", ""),
    // Ten characters at most.
    ("0123456789a\x7f", "012345678", ""),
    // A whole grapheme is deleted.
    (
        "e\u{301}👩\u{200d}👩🇩🇪🇫🇷\x1b[D\x7f",
        "e\u{301}👩\u{200d}👩",
        "🇫🇷",
    ),
    ("e\u{301}👩\u{200d}👩\x7f\x7f", "", ""),
    // A character without columns is taken if it joins the one before.
    ("\u{301}a\u{301}\u{200b}b", "a\u{301}b", ""),
    // What is typed before half a flag stays left of the cursor, until the cursor moves.
    ("🇪🇫🇷\x01🇩", "🇩", "🇪🇫🇷"),
    ("🇪🇫🇷\x01🇩\x1b[C\x1b[D", "🇩🇪", "🇫🇷"),
    // Within a paste a newline is a space, a tab is left out, and Ctrl-A is no command; after the paste it is one.
    ("\x1b[200~a\nb\x01\tc\x1b[201~\x01d", "d", "a bc"),
];

fn take_if_some(state: &mut InputState, event: Option<Event>) -> Mem<()> {
    if let Some(event) = event {
        state.take(event)?;
    }
    Ok(())
}

/// Takes the events of these bytes.
pub(crate) fn send(state: &mut InputState, bytes: &str) -> Mem<()> {
    let mut keys = KeyDecoder::new();
    for byte in bytes.as_bytes() {
        let step = keys.step(*byte);
        keys = step.keys;
        take_if_some(state, step.first)?;
        take_if_some(state, step.second)?;
    }
    take_if_some(state, keys.pause().second)
}

fn has_sides(state: &InputState, before: &str, after: &str) -> bool {
    let (left, right) = state.sides();
    left == before && right == after
}

/// Whether the text on each side of the cursor is this, after these bytes.
fn are_sides(alloc: Global, bytes: &str, before: &str, after: &str) -> Mem<bool> {
    let mut state = InputState::new(alloc, 10);
    send(&mut state, bytes)?;
    Ok(has_sides(&state, before, after))
}

#[test]
fn bytes_make_texts(rt: HostRuntime) -> Mem<()> {
    for &(bytes, before, after) in &ROWS {
        assert!(&rt; are_sides(rt.alloc(), bytes, before, after)?);
    }
    Ok(())
}
