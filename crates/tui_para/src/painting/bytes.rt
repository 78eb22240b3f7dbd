//! Paints graphemes of one printable byte each, many in one stroke.

ghost use Rattle.std.specs.Prelude.{◌≡◌, ◌+◌, ◌<◌, ◌≤◌, ◌^◌, ◌++◌, IfSome, IsTrue, drop, length, map, take, true};
ghost use Rattle.std.specs.List.{list_all};
ghost use Rattle.tui_cells.specs.Buffer.{Screen};
ghost use Rattle.tui_cells.specs.Layers.{Painted, KeptOutside};
ghost use Rattle.tui_cells.specs.Rect.{covers};
ghost use Rattle.tui_text.specs.Grapheme.{glyph_of};
ghost use Rattle.tui_clusters.specs.Printable.{is_printable};
ghost use Rattle.tui_para.specs.Strokes.{byte_glyph, run_layers};

use tui_cells::{Buffer, Position, Rect, Style};
use tui_text::{StyledGrapheme, printable_byte};

/// How many bytes are set in one stroke at most.
const MAX_STROKE: usize = 64;

/// Whether two styles are the same.
#[inline(always)]
fn is_same(style: &Style, other: &Style) -> bool
    ensures { IsTrue result → style.now ≡ other.now }
{
    style == other
}

/// Returns the byte of a grapheme, if it is one printable byte in this style.
#[inline(always)]
fn byte_in(grapheme: &StyledGrapheme<'_>, style: &Style) -> Option<u8>
    ensures { IfSome result (λ byte. (glyph_of grapheme.now ≡ byte_glyph style.now byte) × (is_printable byte ≡ true)) }
{
    match printable_byte(grapheme.symbol) {
        Some(byte) if is_same(&grapheme.style, style) => Some(byte),
        _ => None,
    }
}

/// Copies the bytes of the graphemes from `place` on, as long as each is one printable byte in this style. Copies at
/// most `most` bytes, and returns how many.
fn copy_bytes(
    run: &[StyledGrapheme<'_>],
    place: usize,
    most: usize,
    style: &Style,
    bytes: &mut [u8; MAX_STROKE],
) -> usize
    requires { place ≤ length run.now }
    ensures within { (result ≤ most) × (result ≤ MAX_STROKE) × (place + result ≤ length run.now) }
    ensures printable { list_all is_printable (take result bytes.new) ≡ true }
    ensures copied { drop place (map glyph_of run.now)
        ≡ map (byte_glyph style.now) (take result bytes.new) ++ drop (place + result) (map glyph_of run.now) }
{
    let end = most.min(MAX_STROKE).min(run.len() - place);
    let mut count = 0;
    while count < end {
        match byte_in(&run[place + count], style) {
            Some(byte) => {
                bytes[count] = byte;
                count += 1;
            }
            None => return count,
        }
    }
    count
}

/// Sets bytes as `paint_bytes` does. Never inlined, so that other graphemes are painted by a short loop.
#[inline(never)]
fn set_bytes(
    buf: &mut Buffer,
    clip: Rect,
    at: Position,
    run: &[StyledGrapheme<'_>],
    place: usize,
) -> usize
    requires place { place < length run.now }
    requires inside { covers clip at.x at.y ≡ true }
    ensures within { (place + result ≤ length run.now) × (at.x + result < 2 ^ 16) }
    ensures rest { (final : Screen)
        → Painted (run_layers clip (at.x + result) at.y (drop (place + result) (map glyph_of run.now))) buf.new final
        → Painted (run_layers clip at.x at.y (drop place (map glyph_of run.now))) buf.old final }
    ensures kept { KeptOutside (covers clip) buf.old buf.new }
{
    let first = &run[place];
    let mut bytes = [0; MAX_STROKE];
    let count = copy_bytes(
        run,
        place,
        (clip.right() - at.x) as usize,
        &first.style,
        &mut bytes,
    );
    buf.set_ascii(at, &bytes[..count], first.style);
    count
}

/// Whether two graphemes of one byte each begin at `place`. A single one takes fewer steps with a stroke of its own.
#[inline(always)]
fn begins_bytes(run: &[StyledGrapheme<'_>], place: usize) -> bool
    requires { place < length run.now }
{
    if run[place].symbol.len() != 1 {
        return false;
    }
    let rest = run.len() - place;
    rest > 1 && run[place + 1].symbol.len() == 1
}

/// Draws the graphemes of a run from `place` on, as far as the clip goes. Stops at one that is not a printable byte in
/// the style of the first. Returns how many it drew: 0 unless two graphemes of one byte each begin at `place`.
#[inline(always)]
pub(crate) fn paint_bytes(
    buf: &mut Buffer,
    clip: Rect,
    at: Position,
    run: &[StyledGrapheme<'_>],
    place: usize,
) -> usize
    requires place { place < length run.now }
    requires inside { covers clip at.x at.y ≡ true }
    ensures within { (place + result ≤ length run.now) × (at.x + result < 2 ^ 16) }
    ensures rest { (final : Screen)
        → Painted (run_layers clip (at.x + result) at.y (drop (place + result) (map glyph_of run.now))) buf.new final
        → Painted (run_layers clip at.x at.y (drop place (map glyph_of run.now))) buf.old final }
    ensures kept { KeptOutside (covers clip) buf.old buf.new }
{
    if !begins_bytes(run, place) {
        return 0;
    }
    set_bytes(buf, clip, at, run, place)
}
