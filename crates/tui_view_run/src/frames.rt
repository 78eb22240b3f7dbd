//! The command `frames`: scenes that are read line by line and shown on a terminal.

ghost use Rattle.std.specs.Prelude.{◌≡◌, IsAscii, OnOk};
ghost use Rattle.serde_json.specs.View.{view};
ghost use Rattle.tui_cells.specs.Buffer.{IsFilled};
ghost use Rattle.tui_cells.specs.Cell.{blank};
ghost use Rattle.tui_cells.specs.Layers.{Painted};
ghost use Rattle.tui_cells.specs.Rect.{area_of};
ghost use Rattle.tui_display.specs.Run.{IsDisplayRun};
ghost use Rattle.tui_schema.specs.Scene.{reading_data};
ghost use Rattle.tui_view_run.specs.Frames.{IsFrame, IsFrameOf, IsSceneShown, ShowsRefusal, frames_output, refusal_line, message_layers};

use serde_json::Value;
use std::alloc::Global;
use std::mem;
use tui_app::Terminal;
use tui_cells::{Buffer, Mem, NoMemory, Position, Rect, Style};
use tui_display::{DisplayEnd, Painter, show_lines};
use tui_io::MemSink;
use tui_json::InputError;
use tui_program::write_refused_in_scene;
use tui_scene::draw;
use tui_schema::{BadField, Reading, read_scene};
use tui_terminal_model::{Depth, KnownWidths, Output};

/// More bytes than the line that rejects a field has.
const ROOM: usize = 128;

/// A painter for scenes in JSON (docs/SCENE.md), one a line. The next screen is that of the scene. If the line is no
/// scene, the next screen is the current one with the reason in its last row. The reason is cut at the end of the row.
#[derive(Clone, Copy, Debug, PartialEq, Eq)]
pub struct Frames;

impl Painter for Frames {
    ghost calls_for = { λ _. IsFrame };

    /// Allocates the value, the scene and, if the buffer has another size than the scene, a new buffer.
    fn paint(&self, alloc: Global, line: &[u8], shown: &Buffer, next: &mut Buffer) -> Mem<()> {
        match Value::from_slice(alloc, line) {
            Ok(value) => paint_value(alloc, &value, shown, next),
            Err(error) if error.is_memory() => Err(NoMemory),
            Err(_) => show_message(alloc, b"refused: not JSON", shown, next),
        }
    }
}

/// Shows on the terminal, in this colour depth, the scene of each line that is read, as `show_lines` does.
pub fn show_frames<T: Terminal>(alloc: Global, depth: Depth, terminal: &mut T) -> DisplayEnd
    ensures { IsDisplayRun IsFrame (frames_output depth) (T.observed terminal.old) (T.observed terminal.new) result }
{
    let output = Output {
        depth,
        widths: KnownWidths::Common,
        synchronized: false,
    };
    show_lines(alloc, &Frames, output, terminal)
}

fn paint_value(alloc: Global, value: &Value, shown: &Buffer, next: &mut Buffer) -> Mem<()>
    ensures { OnOk result (IsFrameOf (view value.now) shown.now next.new) }
{
    match read_scene(alloc, value) {
        Ok(reading) => {
            let mut reading = reading;
            paint_scene(alloc, &mut reading, next)
        }
        Err(InputError::Refused(refusal)) => show_refusal(alloc, refusal, shown, next),
        Err(InputError::NoMemory) => Err(NoMemory),
    }
}

fn paint_scene(alloc: Global, reading: &mut Reading<'_>, next: &mut Buffer) -> Mem<()>
    ensures { OnOk result (IsSceneShown (reading_data reading.old) next.new) }
{
    make_blank(alloc, reading.width, reading.height, next)?;
    match draw(alloc, &mut reading.scene, next) {
        Ok(()) => {
            // The contract of `height` says that the rows have the size of the area. The proof needs that.
            let _height = next.height();
            Ok(())
        }
        Err(_) => Err(NoMemory),
    }
}

/// Makes a buffer blank, and replaces it if it has another size.
fn make_blank(alloc: Global, width: u16, height: u16, buf: &mut Buffer) -> Mem<()>
    ensures { OnOk result (IsFilled (area_of 0 0 width height) blank buf.new) }
{
    let area = Rect::new(0, 0, width, height);
    if buf.area() == area {
        buf.reset(area);
        Ok(())
    } else {
        replace_with_blank(alloc, area, buf)
    }
}

/// Replaces a buffer by a blank one with this area.
fn replace_with_blank(alloc: Global, area: Rect, buf: &mut Buffer) -> Mem<()>
    ensures { OnOk result (IsFilled (area_of area.x area.y area.width area.height) blank buf.new) }
{
    let blanks = Buffer::empty(alloc, area)?;
    drop(mem::replace(buf, blanks));
    Ok(())
}

fn show_refusal(alloc: Global, refusal: BadField, shown: &Buffer, next: &mut Buffer) -> Mem<()>
    ensures { OnOk result (ShowsRefusal refusal shown.now next.new) }
{
    let mut line = MemSink::new(alloc, ROOM, Vec::new(alloc))?;
    match write_refused_in_scene("item", refusal.item, refusal.field.name(), &mut line) {
        Ok(()) => show_refusal_line(alloc, refusal, line.bytes(), shown, next),
        Err(_) => Err(NoMemory),
    }
}

// The line of a rejection ends in a newline, which is not shown. It is a name and a number, and so ASCII. That is
// tested here, since it isn't proved for every name.
fn show_refusal_line(
    alloc: Global,
    refusal: BadField,
    line: &[u8],
    shown: &Buffer,
    next: &mut Buffer,
) -> Mem<()>
    requires { line.now ≡ refusal_line refusal }
    ensures { OnOk result (ShowsRefusal refusal shown.now next.new) }
{
    let text = &line[..line.len().saturating_sub(1)];
    if text.is_ascii() {
        show_message(alloc, text, shown, next)
    } else {
        Err(NoMemory)
    }
}

/// Shows the current screen with a text in its last row.
fn show_message(alloc: Global, text: &[u8], shown: &Buffer, next: &mut Buffer) -> Mem<()>
    requires { IsAscii text.now }
    ensures { OnOk result (Painted (message_layers shown.now.area text.now) shown.now next.new) }
{
    copy(alloc, shown, next)?;
    draw_message(text, next);
    Ok(())
}

fn draw_message(text: &[u8], buf: &mut Buffer)
    requires { IsAscii text.now }
    ensures { Painted (message_layers buf.old.area text.now) buf.old buf.new }
{
    let area = buf.area();
    let row = area.rows_from(area.height.saturating_sub(1), 1);
    buf.reset(row);
    buf.set_ascii(Position { x: row.x, y: row.y }, text, Style::new());
}

fn copy(alloc: Global, shown: &Buffer, next: &mut Buffer) -> Mem<()>
    ensures { OnOk result (next.new ≡ shown.now) }
{
    match_area(alloc, shown, next)?;
    next.copy_from(shown)
}

/// Gives a buffer the area of the current screen.
fn match_area(alloc: Global, shown: &Buffer, next: &mut Buffer) -> Mem<()>
    ensures { OnOk result (next.new.area ≡ shown.now.area) }
{
    // The contract of `height` says that the area is not cut. The proof needs that.
    let _height = shown.height();
    if next.area() == shown.area() {
        Ok(())
    } else {
        replace_with_blank(alloc, shown.area(), next)
    }
}
