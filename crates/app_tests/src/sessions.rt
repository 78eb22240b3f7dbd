//! Sessions on a terminal in memory: what is written, read by read, and how they end.

use crate::dot::Dot;
use crate::trace::{ENTER, FULL, LEAVE, OUTPUT, TraceEntry, is_tape, terminal};
use std::alloc::Global;
use tui_app::{AppEnd, run};
use tui_cells::{Mem, Size};

/// What is written of the first screen.
const FIRST: &str = "\x1b[1;1H\x1b[0mx   \x1b[1;1H\x1b[?25h";

const SIZE: Size = Size {
    width: 4,
    height: 1,
};

const READS: [&str; 3] = ["\x1b[C", "l", "q"];

/// A session over these reads: the letter moves, all is sent again, and q.
const WHOLE: [TraceEntry<'static>; 10] = [
    TraceEntry::Written(ENTER),
    TraceEntry::Written(FULL),
    TraceEntry::Written(FIRST),
    TraceEntry::Read("\x1b[C"),
    TraceEntry::Written("\x1b[1;1H\x1b[0m x\x1b[1;2H\x1b[?25h"),
    TraceEntry::Read("l"),
    TraceEntry::Written(FULL),
    TraceEntry::Written("\x1b[1;1H\x1b[0m x  \x1b[1;2H\x1b[?25h"),
    TraceEntry::Read("q"),
    TraceEntry::Written(LEAVE),
];

/// A session without input.
const ENDED: [TraceEntry<'static>; 5] = [
    TraceEntry::Written(ENTER),
    TraceEntry::Written(FULL),
    TraceEntry::Written(FIRST),
    TraceEntry::Read(""),
    TraceEntry::Written(LEAVE),
];

/// A session whose only step is out of memory.
const OUT_OF_MEMORY: [TraceEntry<'static>; 5] = [
    TraceEntry::Written(ENTER),
    TraceEntry::Written(FULL),
    TraceEntry::Written(FIRST),
    TraceEntry::Read("m"),
    TraceEntry::Written(LEAVE),
];

/// How a session over these reads ends whose call of a number fails, and whether its tape is the first of these parts and a text.
fn ends(
    alloc: Global,
    (reads, failing): (&[&str], u64),
    end: AppEnd,
    parts: (&[TraceEntry<'_>], usize),
    last: &str,
) -> Mem<bool> {
    let mut terminal = terminal(alloc, reads, failing)?;
    let is_end = run(alloc, &mut Dot { column: 0 }, OUTPUT, SIZE, &mut terminal) == end;
    Ok(is_end && is_tape(alloc, terminal.trace(), parts, last)?)
}

/// The calls of that session that fail, none at 0; how it ends; how many of its parts are on the tape; and what follows them: a read that fails leaves the
/// terminal, a write that fails ends it with nothing after it.
const FAILING: [(u64, AppEnd, usize, &str); 9] = [
    (0, AppEnd::Quit, 10, ""),
    (1, AppEnd::WriteFault, 0, ""),
    (2, AppEnd::WriteFault, 1, ""),
    (3, AppEnd::ReadFault, 3, LEAVE),
    (4, AppEnd::WriteFault, 4, ""),
    (5, AppEnd::ReadFault, 5, LEAVE),
    (6, AppEnd::WriteFault, 6, ""),
    (7, AppEnd::ReadFault, 8, LEAVE),
    (8, AppEnd::WriteFault, 9, ""),
];

#[test]
fn each_call_fails(rt: HostRuntime) -> Mem<()> {
    for &(failing, end, count, last) in &FAILING {
        assert!(&rt; ends(rt.alloc(), (&READS, failing), end, (&WHOLE, count), last)?);
    }
    Ok(())
}

/// The end of input is a read without bytes; a step that is out of memory ends the session; both leave the terminal.
#[test]
fn other_outcomes(rt: HostRuntime) -> Mem<()> {
    let alloc = rt.alloc();
    assert!(&rt; ends(alloc, (&[], 0), AppEnd::Ended, (&ENDED, 5), "")?);
    assert!(&rt;
        ends(
            alloc,
            (&["m"], 0),
            AppEnd::NoMemory,
            (&OUT_OF_MEMORY, 5),
            ""
        )?
    );
    Ok(())
}
