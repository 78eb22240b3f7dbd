//! The bytes that set a pen.

ghost use Rattle.std.specs.Prelude.{◌≡◌, ◌↔◌, ◌<◌, ◌++◌, IsTrue, codes, decimal, flat_map, if◌then◌else◌};
ghost use Rattle.tui_cells.specs.declared.color.Color.TheVariants.{Reset};
ghost use Rattle.tui_io.specs.Prints.{Prints};
ghost use Rattle.tui_terminal.specs.Marks.{mark_if};
ghost use Rattle.tui_terminal_model.specs.Colours.{color_at};
ghost use Rattle.tui_terminal_model.specs.Pens.{background_of, foreground_of, has_name, marks_from, marks_of, paints_of, pen_of, then_background};
ghost use Rattle.tui_terminal_model.specs.Encoding.{background_text, foreground_text, next_setting_text, encoding};

use crate::colours::color_at;
use crate::shade::Channels;
use tui_cells::{Attributes, Color, Modifier};
use tui_io::{Print, Sink};
use tui_terminal_model::Depth;

/// Converts attributes to a depth. At full depth they are unchanged.
#[tactic(auto, unfolding(tui_terminal_model::specs::Colours::color_at))]
pub(crate) fn at_depth(depth: Depth, a: Attributes) -> Attributes
    ensures { result ≡ record { fg = color_at depth a.fg; bg = color_at depth a.bg; modifier = a.modifier } }
{
    match depth {
        Depth::True => a,
        _ => at_less(depth, a),
    }
}

fn at_less(depth: Depth, a: Attributes) -> Attributes
    ensures { result ≡ record { fg = color_at depth a.fg; bg = color_at depth a.bg; modifier = a.modifier } }
{
    Attributes {
        fg: color_at(depth, a.fg),
        bg: color_at(depth, a.bg),
        modifier: a.modifier,
    }
}

/// Adds the bytes that set the pen to some attributes at this depth, whatever the pen was.
#[cold]
#[inline(never)]
pub(crate) fn emit_pen<K: Sink>(
    print: &mut Print,
    depth: Depth,
    attributes: Attributes,
    sink: &mut K,
)
    ensures { Prints (K.observed sink.old) (K.observed sink.new) print.old print.new (flat_map encoding (paints_of (pen_of depth attributes))) }
{
    emit_colours(
        print,
        color_at(depth, attributes.fg),
        color_at(depth, attributes.bg),
        attributes.modifier,
        sink,
    );
}

/// Adds the bytes that set the pen to two colours, already converted to the depth, and some modifiers,
/// whatever the pen was.
pub(crate) fn emit_colours<K: Sink>(
    print: &mut Print,
    fg: Color,
    bg: Color,
    modifier: Modifier,
    sink: &mut K,
)
    ensures { Prints (K.observed sink.old) (K.observed sink.new) print.old print.new
        (flat_map encoding (paints_of (record { fg = fg; bg = bg; marks = marks_of modifier.bits }))) }
{
    print.text(sink, "\x1b[0");
    emit_marks(print, modifier.bits(), sink);
    emit_foreground(print, fg, sink);
    emit_background(print, named_or_reset(bg), sink);
    print.push(sink, b'm');
    emit_unnamed_background(print, bg, sink);
}

fn named_or_reset(color: Color) -> Color
    ensures { result ≡ (if has_name color then color else Reset) }
{
    if has_name(color) { color } else { Color::Reset }
}

/// Whether a colour is the terminal's own or one of the sixteen named ones.
#[tactic(auto, unfolding(tui_terminal_model::specs::Pens::has_name))]
pub(crate) fn has_name(color: Color) -> bool
    ensures { result ≡ has_name color }
{
    !matches!(color, Color::Rgb(..) | Color::Indexed(_))
}

fn emit_marks<K: Sink>(print: &mut Print, bits: u16, sink: &mut K)
    ensures { Prints (K.observed sink.old) (K.observed sink.new) print.old print.new (flat_map next_setting_text (marks_from 0 (marks_of bits))) }
{
    emit_mark(print, bits & 1 == 1, 0, sink);
    emit_mark(print, bits & 2 == 2, 1, sink);
    emit_mark(print, bits & 4 == 4, 2, sink);
    emit_mark(print, bits & 8 == 8, 3, sink);
    emit_mark(print, bits & 16 == 16, 4, sink);
    emit_mark(print, bits & 32 == 32, 5, sink);
    emit_mark(print, bits & 64 == 64, 6, sink);
    emit_mark(print, bits & 128 == 128, 7, sink);
    emit_mark(print, bits & 256 == 256, 8, sink);
}

#[inline]
fn emit_mark<K: Sink>(print: &mut Print, is_on: bool, place: usize, sink: &mut K)
    requires { place < 9 }
    ensures { Prints (K.observed sink.old) (K.observed sink.new) print.old print.new (flat_map next_setting_text (mark_if place is_on)) }
{
    if is_on {
        print.push(sink, b';');
        print.number(sink, place + 1);
    }
}

fn is_reset(color: Color) -> bool
    ensures { IsTrue result ↔ (color ≡ Reset) }
{
    matches!(color, Color::Reset)
}

// Adds the setting of a foreground colour. The terminal's own needs none.
fn emit_foreground<K: Sink>(print: &mut Print, color: Color, sink: &mut K)
    ensures { Prints (K.observed sink.old) (K.observed sink.new) print.old print.new (flat_map next_setting_text (foreground_of color)) }
{
    if !is_reset(color) {
        print.push(sink, b';');
        emit_foreground_text(print, color, sink);
    }
}

/// Adds the parameters of a foreground colour.
#[tactic(auto, unfolding(tui_terminal_model::specs::Encoding::foreground_text))]
pub(crate) fn emit_foreground_text<K: Sink>(print: &mut Print, color: Color, sink: &mut K)
    ensures { Prints (K.observed sink.old) (K.observed sink.new) print.old print.new (foreground_text color) }
{
    match color {
        Color::Reset => print.text(sink, "39"),
        Color::Black => print.text(sink, "30"),
        Color::Red => print.text(sink, "31"),
        Color::Green => print.text(sink, "32"),
        Color::Yellow => print.text(sink, "33"),
        Color::Blue => print.text(sink, "34"),
        Color::Magenta => print.text(sink, "35"),
        Color::Cyan => print.text(sink, "36"),
        Color::Gray => print.text(sink, "37"),
        Color::DarkGray => print.text(sink, "90"),
        Color::LightRed => print.text(sink, "91"),
        Color::LightGreen => print.text(sink, "92"),
        Color::LightYellow => print.text(sink, "93"),
        Color::LightBlue => print.text(sink, "94"),
        Color::LightMagenta => print.text(sink, "95"),
        Color::LightCyan => print.text(sink, "96"),
        Color::White => print.text(sink, "97"),
        Color::Rgb(red, green, blue) => emit_rgb(
            print,
            "38;2;",
            Channels { red, green, blue },
            sink,
        ),
        Color::Indexed(n) => emit_indexed(print, "38;5;", n, sink),
    }
}

// Adds the setting of a background colour. The terminal's own needs none.
fn emit_background<K: Sink>(print: &mut Print, color: Color, sink: &mut K)
    ensures { Prints (K.observed sink.old) (K.observed sink.new) print.old print.new (flat_map next_setting_text (background_of color)) }
{
    if !is_reset(color) {
        print.push(sink, b';');
        emit_background_text(print, color, sink);
    }
}

// A background colour without a name has a sequence of its own, so that no sequence has more
// than 16 parameters.
fn emit_unnamed_background<K: Sink>(print: &mut Print, color: Color, sink: &mut K)
    ensures { Prints (K.observed sink.old) (K.observed sink.new) print.old print.new (flat_map encoding (then_background color)) }
{
    if !has_name(color) {
        print.text(sink, "\x1b[");
        emit_background_text(print, color, sink);
        print.push(sink, b'm');
    }
}

/// Adds the parameters of a background colour.
#[tactic(auto, unfolding(tui_terminal_model::specs::Encoding::background_text))]
pub(crate) fn emit_background_text<K: Sink>(print: &mut Print, color: Color, sink: &mut K)
    ensures { Prints (K.observed sink.old) (K.observed sink.new) print.old print.new (background_text color) }
{
    match color {
        Color::Reset => print.text(sink, "49"),
        Color::Black => print.text(sink, "40"),
        Color::Red => print.text(sink, "41"),
        Color::Green => print.text(sink, "42"),
        Color::Yellow => print.text(sink, "43"),
        Color::Blue => print.text(sink, "44"),
        Color::Magenta => print.text(sink, "45"),
        Color::Cyan => print.text(sink, "46"),
        Color::Gray => print.text(sink, "47"),
        Color::DarkGray => print.text(sink, "100"),
        Color::LightRed => print.text(sink, "101"),
        Color::LightGreen => print.text(sink, "102"),
        Color::LightYellow => print.text(sink, "103"),
        Color::LightBlue => print.text(sink, "104"),
        Color::LightMagenta => print.text(sink, "105"),
        Color::LightCyan => print.text(sink, "106"),
        Color::White => print.text(sink, "107"),
        Color::Rgb(red, green, blue) => emit_rgb(
            print,
            "48;2;",
            Channels { red, green, blue },
            sink,
        ),
        Color::Indexed(n) => emit_indexed(print, "48;5;", n, sink),
    }
}

fn emit_rgb<K: Sink>(print: &mut Print, kind: &str, channels: Channels, sink: &mut K)
    ensures { Prints (K.observed sink.old) (K.observed sink.new) print.old print.new
        (kind.now ++ (decimal channels.red ++ (codes ";" ++ (decimal channels.green ++ (codes ";" ++ decimal channels.blue))))) }
{
    print.text(sink, kind);
    print.number(sink, channels.red as usize);
    print.push(sink, b';');
    print.number(sink, channels.green as usize);
    print.push(sink, b';');
    print.number(sink, channels.blue as usize);
}

fn emit_indexed<K: Sink>(print: &mut Print, kind: &str, n: u8, sink: &mut K)
    ensures { Prints (K.observed sink.old) (K.observed sink.new) print.old print.new (kind.now ++ decimal n) }
{
    print.text(sink, kind);
    print.number(sink, n as usize);
}
