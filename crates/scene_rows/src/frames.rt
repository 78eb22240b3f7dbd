//! Rows of frames: what is sent to show one scene on a terminal, and then the next.

ghost use Rattle.std.specs.Prelude.{IfOk};
ghost use Rattle.tui_terminal_model.specs.Shows.{IsCursorInside};

use crate::members::{check_keys, flag, member, pair};
use anyhow::{Result, bail};
use serde_json::Value;
use std::alloc::Global;
use std::io::Write;
use tui_cells::{Buffer, Position};
use tui_io::{MemSink, WriteFault};
use tui_port::scene_of;
use tui_scene::draw_new;
use tui_terminal::{
    Cursor, Depth, KnownWidths, Output, write_changes, write_full, write_styled_rows,
};

/// The most bytes of a frame.
const ROOM: usize = 65_536;

/// The bytes that a full screen begins with. They are written as `tame`.
pub(crate) const PREAMBLE: &str =
    "\x18\x1b\\\x1b[?2026l\x1b[?69l\x1b[?6l\x1b[4l\x1b[r\x1b(B\x0f\x1b[?7l";

/// Scenes that one terminal shows, and how they are sent.
#[derive(Clone, Copy)]
struct Frames<'v> {
    /// The first scene, which is sent in full.
    scene: &'v Value,
    /// The next one, of which the changes are sent, or all if its size is another.
    then: Option<&'v Value>,
    /// How they are sent.
    way: Way,
}

/// How scenes are sent.
#[derive(Clone, Copy)]
struct Way {
    /// Which colours are sent; all if the row does not say it.
    depth: Depth,
    /// Whether ASCII alone is trusted.
    ascii: bool,
    /// Where the cursor is, a column and a row.
    cursor: Option<(u16, u16)>,
    /// Whether the terminal is asked to show each frame at once.
    synchronized: bool,
    /// Whether the rows of the first scene are sent one under another instead.
    rows: bool,
}

const KEYS: [&str; 7] = [
    "scene",
    "then",
    "depth",
    "ascii",
    "cursor",
    "synchronized",
    "rows",
];

/// Writes what is sent of each scene, a line each.
pub(crate) fn show_frames<W: Write>(alloc: Global, frames: &Value, out: &mut W) -> Result<()> {
    check_keys(frames, &KEYS)?;
    let Some(scene) = member(frames, "scene") else {
        bail!("no scene");
    };
    let then = member(frames, "then");
    let way = way_of(frames)?;
    Frames { scene, then, way }.show(alloc, out)
}

fn way_of(frames: &Value) -> Result<Way> {
    Ok(Way {
        depth: depth_of(frames)?,
        cursor: cursor_of(frames)?,
        ascii: flag_of(frames, "ascii")?,
        synchronized: flag_of(frames, "synchronized")?,
        rows: flag_of(frames, "rows")?,
    })
}

fn flag_of(frames: &Value, key: &str) -> Result<bool> {
    match flag(frames, key) {
        Some(is_set) => Ok(is_set),
        None => bail!("no truth value"),
    }
}

fn depth_of(frames: &Value) -> Result<Depth> {
    let Some(name) = member(frames, "depth") else {
        return Ok(Depth::True);
    };
    match name.as_str() {
        Some("None") => Ok(Depth::None),
        Some("Sixteen") => Ok(Depth::Sixteen),
        Some("Palette") => Ok(Depth::Palette),
        Some("True") => Ok(Depth::True),
        _ => bail!("no depth"),
    }
}

fn cursor_of(frames: &Value) -> Result<Option<(u16, u16)>> {
    let Some(cursor) = member(frames, "cursor") else {
        return Ok(None);
    };
    match (cursor.get(0usize), cursor.get(1usize)) {
        (Some(x), Some(y)) => Ok(Some(pair(x, y)?)),
        _ => bail!("no column and row"),
    }
}

impl<'v> Frames<'v> {
    fn show<W: Write>(&self, alloc: Global, out: &mut W) -> Result<()> {
        let first = drawn(alloc, self.scene)?;
        if self.way.rows {
            return self.show_rows(alloc, &first, out);
        }
        self.show_full(alloc, &first, out)?;
        match self.then {
            None => Ok(()),
            Some(scene) => self.show_next(alloc, &first, &drawn(alloc, scene)?, out),
        }
    }

    fn show_rows<W: Write>(&self, alloc: Global, buffer: &Buffer, out: &mut W) -> Result<()> {
        let mut sink = MemSink::new(alloc, ROOM, Vec::new(alloc))?;
        let answer = write_styled_rows(buffer, self.way.depth, &mut sink);
        write_out(out, "rows", answer, sink.bytes())
    }

    fn show_full<W: Write>(&self, alloc: Global, buffer: &Buffer, out: &mut W) -> Result<()> {
        let mut sink = MemSink::new(alloc, ROOM, Vec::new(alloc))?;
        let cursor = cursor_in(buffer, self.way.cursor)?;
        let answer = write_full(buffer, self.output(), cursor, &mut sink);
        write_out(out, "full", answer, sink.bytes())
    }

    fn show_next<W: Write>(
        &self,
        alloc: Global,
        old: &Buffer,
        new: &Buffer,
        out: &mut W,
    ) -> Result<()> {
        if old.area() != new.area() {
            return self.show_full(alloc, new, out);
        }
        let mut sink = MemSink::new(alloc, ROOM, Vec::new(alloc))?;
        let cursor = cursor_in(new, self.way.cursor)?;
        let answer = write_changes(old, new, self.output(), cursor, &mut sink);
        write_out(out, "then", answer, sink.bytes())
    }

    /// Returns how a buffer is sent.
    fn output(&self) -> Output {
        Output {
            depth: self.way.depth,
            widths: if self.way.ascii {
                KnownWidths::Ascii
            } else {
                KnownWidths::Common
            },
            synchronized: self.way.synchronized,
        }
    }
}

/// Returns the cursor, which must be in the area.
fn cursor_in(buffer: &Buffer, place: Option<(u16, u16)>) -> Result<Cursor>
    ensures { IfOk result (λ cursor. IsCursorInside cursor buffer.now) }
{
    let Some((x, y)) = place else {
        return Ok(Cursor::Keep);
    };
    let position = Position { x, y };
    if !buffer.area().contains(position) {
        bail!("the cursor is outside");
    }
    Ok(Cursor::At(position))
}

/// Draws a scene on a new buffer.
fn drawn(alloc: Global, scene: &Value) -> Result<Buffer> {
    let Ok(mut reading) = scene_of(alloc, scene) else {
        bail!("the scene is refused");
    };
    Ok(draw_new(alloc, reading.width, reading.height, &mut reading.scene)?)
}

/// Writes a word and the bytes that were sent, in one line. ESC is written as `\e`, and other control characters as
/// their numbers.
fn write_out<W: Write>(
    out: &mut W,
    word: &str,
    written: Result<(), WriteFault>,
    bytes: &[u8],
) -> Result<()> {
    if written.is_err() {
        bail!("no room for the frame");
    }
    write!(out, "{word} ")?;
    let rest = match bytes.strip_prefix(PREAMBLE.as_bytes()) {
        Some(rest) => {
            write!(out, "tame ")?;
            rest
        }
        None => bytes,
    };
    write_escaped(out, rest)?;
    writeln!(out, "")?;
    Ok(())
}

pub(crate) fn write_escaped<W: Write>(out: &mut W, bytes: &[u8]) -> Result<()> {
    for byte in bytes {
        write_escaped_byte(out, *byte)?;
    }
    Ok(())
}

fn write_escaped_byte<W: Write>(out: &mut W, byte: u8) -> Result<()> {
    match byte {
        0x1b => out.write_all(b"\\e")?,
        b'\\' => out.write_all(b"\\\\")?,
        0..0x20 | 0x7f => write!(out, "\\x{byte:02x}")?,
        _ => out.write_all(&[byte])?,
    }
    Ok(())
}
