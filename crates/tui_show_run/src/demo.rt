//! The command `demo`: a list of items beside a paragraph of words, with a given number of both.

ghost use Rattle.std.specs.Prelude.{◌≡◌, ◌≤◌, ◌++◌, IfOk, flat_map, string_bytes};
ghost use Rattle.tui_rows.specs.RowLine.{row_line};
ghost use Rattle.tui_program.specs.Outcomes.{AnswersWith, no_refusal, nothing};
ghost use Rattle.tui_scene.specs.Item.{item_data};
ghost use Rattle.tui_show_run.specs.Demo.{IsDemo, first_offset, offset_in};

mod items;
mod letters;
mod line;
mod scene;
mod text;

use crate::demo::line::demo_line;
use crate::demo::scene::demo_scene;
use crate::demo::text::demo_text;
use std::alloc::Global;
use tui_cells::{Buffer, Mem};
use tui_io::Sink;
use tui_program::Outcome;
use tui_rows::write_rows;
use tui_scene::{Item, Scene, draw_new};
use tui_schema::BadField;

/// Draws the demonstration of `n` items and `n` words, and writes a line about it and the rows of its screen.
pub(crate) fn show_demo<K: Sink>(alloc: Global, n: u32, sink: &mut K) -> Outcome<(), BadField>
    requires least { 1 ≤ n }
    requires most { n ≤ 100000 }
    ensures { AnswersWith (IsDemo n) nothing no_refusal (K.observed sink.old) (K.observed sink.new) result }
{
    let (line, buffer) = drawn_demo(alloc, n)?;
    write_rows(line.as_str(), &buffer, sink)?;
    Ok(())
}

/// Returns the line, and the buffer whose rows follow it.
fn drawn_demo(alloc: Global, n: u32) -> Mem<(String, Buffer)>
    requires least { 1 ≤ n }
    requires most { n ≤ 100000 }
    ensures { IfOk result (λ r. IsDemo n (string_bytes r.0 ++ flat_map row_line r.1.rows)) }
{
    let text = demo_text(alloc, n)?;
    let mut demo = demo_scene(alloc, n, text.as_str())?;
    let buffer = draw_new(alloc, 40, 8, &mut demo.scene)?;
    let line = demo_line(alloc, n, first_offset(&demo.scene), demo.lines)?;
    Ok((line, buffer))
}

/// Returns the offset of the list that is the first item of a scene.
fn first_offset(scene: &Scene<'_>) -> usize
    ensures { result ≡ first_offset scene.now }
{
    match scene.items() {
        [first, ..] => offset_in(&first.item),
        [] => 0,
    }
}

fn offset_in(item: &Item<'_>) -> usize
    ensures { result ≡ offset_in (item_data item.now) }
{
    match item {
        Item::List(_, state) => state.offset(),
        _ => 0,
    }
}
