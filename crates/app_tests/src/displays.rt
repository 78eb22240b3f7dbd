//! Displays of lines on a terminal in memory: what is written, read by read, and how they end.

use crate::trace::{ENTER, FULL, LEAVE, OUTPUT, TraceEntry, is_tape, terminal};
use std::alloc::Global;
use std::{mem, str};
use tui_cells::{Buffer, Mem, NoMemory};
use tui_display::{DisplayEnd, Painter, show_lines};

/// A line asks for its characters in one row.
#[derive(Clone, Copy)]
struct Letters;

impl Painter for Letters {
    ghost calls_for = { λ _ line old new. Unit {0} };

    fn paint(&self, alloc: Global, line: &[u8], shown: &Buffer, next: &mut Buffer) -> Mem<()> {
        let Ok(text) = str::from_utf8(line) else {
            return Err(NoMemory);
        };
        let row = Buffer::from_rows(alloc, text)?;
        drop(mem::replace(next, row));
        Ok(())
    }
}

/// A row of 80 spaces.
const BLANKS: &str =
    "\x1b[1;1H\x1b[0m                                                                                \x1b[?25l";

/// Two lines in one read, of which the second sends only what has changed; an empty line; and a line in two reads,
/// without a newline, of another size.
const WHOLE: [TraceEntry<'static>; 17] = [
    TraceEntry::Written(ENTER),
    TraceEntry::Written(FULL),
    TraceEntry::Written(BLANKS),
    TraceEntry::Read("ab\nac\n"),
    TraceEntry::Written(FULL),
    TraceEntry::Written(BLANKS),
    TraceEntry::Written(FULL),
    TraceEntry::Written("\x1b[1;1H\x1b[0mab\x1b[?25l"),
    TraceEntry::Written("\x1b[1;2H\x1b[0mc\x1b[?25l"),
    TraceEntry::Read("\na"),
    TraceEntry::Read("bc"),
    TraceEntry::Read(""),
    TraceEntry::Written(FULL),
    TraceEntry::Written("\x1b[1;1H\x1b[0m  \x1b[?25l"),
    TraceEntry::Written(FULL),
    TraceEntry::Written("\x1b[1;1H\x1b[0mabc\x1b[?25l"),
    TraceEntry::Written(LEAVE),
];

/// How a display of these reads ends whose call of a number fails, and whether its tape is the first of these parts and a text.
fn ends(alloc: Global, failing: u64, end: DisplayEnd, count: usize, last: &str) -> Mem<bool> {
    let mut terminal = terminal(alloc, &["ab\nac\n", "\na", "bc"], failing)?;
    let is_end = show_lines(alloc, &Letters, OUTPUT, &mut terminal) == end;
    Ok(is_end && is_tape(alloc, terminal.trace(), (&WHOLE, count), last)?)
}

/// Calls of that display that fail, none at 0; how it ends; how many of its parts are on the tape; and what follows them: a read that fails leaves the terminal, a
/// write that fails ends it with nothing after it.
const FAILING: [(u64, DisplayEnd, usize, &str); 8] = [
    (0, DisplayEnd::Ended, 17, ""),
    (1, DisplayEnd::WriteFault, 0, ""),
    (2, DisplayEnd::WriteFault, 1, ""),
    (3, DisplayEnd::ReadFault, 3, LEAVE),
    (5, DisplayEnd::WriteFault, 6, ""),
    (6, DisplayEnd::WriteFault, 8, ""),
    (8, DisplayEnd::ReadFault, 10, LEAVE),
    (12, DisplayEnd::WriteFault, 16, ""),
];

#[test]
fn calls_fail(rt: HostRuntime) -> Mem<()> {
    for &(failing, end, count, last) in &FAILING {
        assert!(&rt; ends(rt.alloc(), failing, end, count, last)?);
    }
    Ok(())
}
