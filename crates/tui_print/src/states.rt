//! The states of widgets.

ghost use Rattle.tui_io.specs.Prints.{Prints};
ghost use Rattle.tui_print.specs.Print.{state_line, state_lines, state_text};
ghost use Rattle.tui_scene.specs.Item.{item_data};

use tui_io::{Print, Sink};
use tui_scene::{Item, Scene};

/// Adds the states of a scene to a print: a line `t item widget offset selected column` for each widget with a state.
pub fn emit_states<K: Sink>(print: &mut Print, scene: &Scene<'_>, sink: &mut K)
    ensures { Prints (K.observed sink.old) (K.observed sink.new) print.old print.new (state_lines 0 scene.now) }
{
    let items = scene.items();
    'items: for number in 0..items.len() {
        emit_state(print, number, &items[number].item, sink);
    }
}

fn emit_state<K: Sink>(print: &mut Print, number: usize, item: &Item<'_>, sink: &mut K)
    ensures { Prints (K.observed sink.old) (K.observed sink.new) print.old print.new (state_line number (item_data item.now)) }
{
    match item {
        Item::List(_, state) => {
            let offset = state.offset();
            emit_state_line(print, number, b"list", offset, state.selected(), None, sink);
        }
        Item::Table(_, state) => {
            let offset = state.offset();
            let column = state.selected_column();
            emit_state_line(
                print,
                number,
                b"table",
                offset,
                state.selected(),
                column,
                sink,
            );
        }
        Item::Scrollbar(_, state) => {
            let position = state.get_position();
            emit_state_line(print, number, b"scrollbar", position, None, None, sink);
        }
        _ => {}
    }
}

fn emit_state_line<K: Sink>(
    print: &mut Print,
    number: usize,
    name: &[u8],
    start: usize,
    row: Option<usize>,
    column: Option<usize>,
    sink: &mut K,
)
    ensures { Prints (K.observed sink.old) (K.observed sink.new) print.old print.new (state_text number name.now start row column) }
{
    print.extend(sink, b"t ");
    print.number(sink, number);
    print.push(sink, b' ');
    print.extend(sink, name);
    print.push(sink, b' ');
    print.number(sink, start);
    print.push(sink, b' ');
    print.place(sink, row);
    print.push(sink, b' ');
    print.place(sink, column);
    print.push(sink, b'\n');
}
