//! Adding to a pen: the bytes.

ghost use Rattle.std.specs.Prelude.{◌≡◌, ◌<◌, ◌&&◌, ◌||◌, false, flat_map, not};
ghost use Rattle.tui_io.specs.Prints.{Prints};
ghost use Rattle.tui_terminal.specs.Adding.{
  begun_after,
  end_text,
  is_added,
  lead,
  named_added,
  sent_pen,
  settings_text,
};
ghost use Rattle.tui_terminal.specs.Marks.{mark_if};
ghost use Rattle.tui_terminal_model.specs.Pens.{
  add_all,
  adds_of,
  background_added,
  color_stays,
  foreground_added,
  has,
  is_bright,
  is_own,
  marks_added,
  marks_of,
  marks_stay,
  only_adds,
  pen_of,
  then_background_added,
};
ghost use Rattle.tui_terminal_model.specs.Encoding.{encoding};
ghost use Rattle.tui_terminal_laws.specs.Sending.{repaints};

use crate::pens::{at_depth, emit_background_text, emit_colours, emit_foreground_text, has_name};
use tui_cells::{Attributes, Color};
use tui_io::{Print, Sink};
use tui_terminal_model::Depth;

/// Adds the bytes that turn the pen of some attributes into the pen of others, at this depth. If nothing is
/// taken away, only what is added is sent.
#[cold]
#[inline(never)]
pub(crate) fn emit_repaint<K: Sink>(
    print: &mut Print,
    depth: Depth,
    from: Attributes,
    to: Attributes,
    sink: &mut K,
)
    ensures { Prints (K.observed sink.old) (K.observed sink.new) print.old print.new
        (flat_map encoding (repaints (pen_of depth from) (pen_of depth to))) }
{
    let was = at_depth(depth, from);
    let is = at_depth(depth, to);
    if only_adds(was, is) {
        emit_added(print, was, is, sink);
    } else {
        emit_colours(print, is.fg, is.bg, is.modifier, sink);
    }
}

// Whether nothing is taken away from the pen.
fn only_adds(was: Attributes, is: Attributes) -> bool
    ensures { result ≡ only_adds (sent_pen was) (sent_pen is) }
{
    !is_any_bright(was) && stays(was, is)
}

fn is_any_bright(pen: Attributes) -> bool
    ensures { result ≡ (is_bright pen.fg || is_bright pen.bg) }
{
    is_bright(pen.fg) || is_bright(pen.bg)
}

// Whether some terminals show a colour by bold, which they don't take back at the next colour.
#[tactic(auto, unfolding(tui_terminal_model::specs::Pens::is_bright))]
fn is_bright(color: Color) -> bool
    ensures { result ≡ is_bright color }
{
    matches!(
        color,
        Color::DarkGray
            | Color::LightRed
            | Color::LightGreen
            | Color::LightYellow
            | Color::LightBlue
            | Color::LightMagenta
            | Color::LightCyan
            | Color::White
    )
}

fn stays(was: Attributes, is: Attributes) -> bool
    ensures { result ≡ (marks_stay (marks_of was.modifier.bits) (marks_of is.modifier.bits)
        && (color_stays was.fg is.fg && color_stays was.bg is.bg)) }
{
    marks_stay(was.modifier.bits(), is.modifier.bits()) && colors_stay(was, is)
}

fn colors_stay(was: Attributes, is: Attributes) -> bool
    ensures { result ≡ (color_stays was.fg is.fg && color_stays was.bg is.bg) }
{
    color_stays(was.fg, is.fg) && color_stays(was.bg, is.bg)
}

fn color_stays(was: Color, is: Color) -> bool
    ensures { result ≡ color_stays was is }
{
    was == is || !is_own(is)
}

// Whether a colour is the terminal's own.
#[tactic(auto, unfolding(tui_terminal_model::specs::Pens::is_own))]
fn is_own(color: Color) -> bool
    ensures { result ≡ is_own color }
{
    matches!(color, Color::Reset)
}

/// Whether each mark of the first bits is also set in the second.
pub(crate) fn marks_stay(was: u16, is: u16) -> bool
    ensures { result ≡ marks_stay (marks_of was) (marks_of is) }
{
    mark_stays(was, is, 1)
        & mark_stays(was, is, 2)
        & mark_stays(was, is, 4)
        & mark_stays(was, is, 8)
        & mark_stays(was, is, 16)
        & mark_stays(was, is, 32)
        & mark_stays(was, is, 64)
        & mark_stays(was, is, 128)
        & mark_stays(was, is, 256)
}

#[inline]
fn mark_stays(was: u16, is: u16, one: u16) -> bool
    ensures { result ≡ (not (has was one) || has is one) }
{
    was & one != one || is & one == one
}

// Adds the settings by which one pen differs from another. The colours are already converted to the depth.
fn emit_added<K: Sink>(print: &mut Print, was: Attributes, is: Attributes, sink: &mut K)
    ensures { Prints (K.observed sink.old) (K.observed sink.new) print.old print.new
        (flat_map encoding (adds_of (sent_pen was) (sent_pen is))) }
{
    let marked = emit_marks_added(print, was.modifier.bits(), is.modifier.bits(), sink);
    let fronted = emit_foreground_added(print, marked, was.fg, is.fg, sink);
    let begun = emit_named_added(print, fronted, was.bg, is.bg, sink);
    emit_end(print, begun, sink);
    emit_unnamed_background_added(print, was.bg, is.bg, sink);
}

// Adds the new marks. Returns whether the sequence has begun.
fn emit_marks_added<K: Sink>(print: &mut Print, was: u16, is: u16, sink: &mut K) -> bool
    ensures next { result ≡ begun_after false (marks_added 0 (marks_of was) (marks_of is)) }
    ensures emitted { Prints (K.observed sink.old) (K.observed sink.new) print.old print.new
        (settings_text false (marks_added 0 (marks_of was) (marks_of is))) }
{
    let bold = emit_mark_if(print, false, is_added(was, is, 1), 0, sink);
    let dim = emit_mark_if(print, bold, is_added(was, is, 2), 1, sink);
    let italic = emit_mark_if(print, dim, is_added(was, is, 4), 2, sink);
    let underlined = emit_mark_if(print, italic, is_added(was, is, 8), 3, sink);
    let slow = emit_mark_if(print, underlined, is_added(was, is, 16), 4, sink);
    let rapid = emit_mark_if(print, slow, is_added(was, is, 32), 5, sink);
    let reversed = emit_mark_if(print, rapid, is_added(was, is, 64), 6, sink);
    let hidden = emit_mark_if(print, reversed, is_added(was, is, 128), 7, sink);
    emit_mark_if(print, hidden, is_added(was, is, 256), 8, sink)
}

#[inline]
fn is_added(was: u16, is: u16, one: u16) -> bool
    ensures { result ≡ is_added was is one }
{
    was & one != one && is & one == one
}

#[inline]
fn emit_mark_if<K: Sink>(
    print: &mut Print,
    begun: bool,
    is_on: bool,
    place: usize,
    sink: &mut K,
) -> bool
    requires { place < 9 }
    ensures next { result ≡ begun_after begun (mark_if place is_on) }
    ensures emitted { Prints (K.observed sink.old) (K.observed sink.new) print.old print.new
        (settings_text begun (mark_if place is_on)) }
{
    if is_on {
        emit_lead(print, begun, sink);
        print.number(sink, place + 1);
        true
    } else {
        begun
    }
}

fn emit_foreground_added<K: Sink>(
    print: &mut Print,
    begun: bool,
    was: Color,
    is: Color,
    sink: &mut K,
) -> bool
    ensures next { result ≡ begun_after begun (foreground_added was is) }
    ensures emitted { Prints (K.observed sink.old) (K.observed sink.new) print.old print.new
        (settings_text begun (foreground_added was is)) }
{
    if was == is {
        begun
    } else {
        emit_lead(print, begun, sink);
        emit_foreground_text(print, is, sink);
        true
    }
}

fn emit_background_added<K: Sink>(
    print: &mut Print,
    begun: bool,
    was: Color,
    is: Color,
    sink: &mut K,
) -> bool
    ensures next { result ≡ begun_after begun (background_added was is) }
    ensures emitted { Prints (K.observed sink.old) (K.observed sink.new) print.old print.new
        (settings_text begun (background_added was is)) }
{
    if was == is {
        begun
    } else {
        emit_lead(print, begun, sink);
        emit_background_text(print, is, sink);
        true
    }
}

// Adds a background colour, if it has a name.
fn emit_named_added<K: Sink>(
    print: &mut Print,
    begun: bool,
    was: Color,
    is: Color,
    sink: &mut K,
) -> bool
    ensures next { result ≡ begun_after begun (named_added was is) }
    ensures emitted { Prints (K.observed sink.old) (K.observed sink.new) print.old print.new
        (settings_text begun (named_added was is)) }
{
    if has_name(is) {
        emit_background_added(print, begun, was, is, sink)
    } else {
        begun
    }
}

// Adds a background colour that has no name, in a sequence of its own.
fn emit_unnamed_background_added<K: Sink>(print: &mut Print, was: Color, is: Color, sink: &mut K)
    ensures { Prints (K.observed sink.old) (K.observed sink.new) print.old print.new (flat_map encoding (then_background_added was is)) }
{
    if !has_name(is) {
        emit_background_alone(print, was, is, sink);
    }
}

fn emit_background_alone<K: Sink>(print: &mut Print, was: Color, is: Color, sink: &mut K)
    ensures { Prints (K.observed sink.old) (K.observed sink.new) print.old print.new (flat_map encoding (add_all (background_added was is))) }
{
    let begun = emit_background_added(print, false, was, is, sink);
    emit_end(print, begun, sink);
}

// The first setting begins the sequence.
#[inline]
fn emit_lead<K: Sink>(print: &mut Print, begun: bool, sink: &mut K)
    ensures { Prints (K.observed sink.old) (K.observed sink.new) print.old print.new (lead begun) }
{
    if begun {
        print.push(sink, b';');
    } else {
        print.text(sink, "\x1b[");
    }
}

#[inline]
fn emit_end<K: Sink>(print: &mut Print, begun: bool, sink: &mut K)
    ensures { Prints (K.observed sink.old) (K.observed sink.new) print.old print.new (end_text begun) }
{
    if begun {
        print.push(sink, b'm');
    }
}
