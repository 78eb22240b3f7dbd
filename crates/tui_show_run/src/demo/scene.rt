//! The scene.

ghost use Rattle.std.specs.Prelude.{◌≡◌, ◌≤◌, IfOk};
ghost use Rattle.tui_show_run.specs.Demo.Scene.{HasLines, demo_paragraph, demo_scene};
ghost use Rattle.tui_show_run.specs.Demo.Text.{demo_text};
ghost use Rattle.tui_para.specs.Paragraph.{paragraph_data};

use crate::demo::items::demo_items;
use std::alloc::Global;
use tui_cells::{Mem, Rect};
use tui_lists::{List, ListState};
use tui_para::{Paragraph, Wrap, text_wraps_exactly_once};
use tui_scene::{Item, Placed, Scene};
use tui_text::{Line, Text};

/// The columns of the list, and those of the words beside it.
const WIDTH: u16 = 20;

const HEIGHT: u16 = 8;

/// A scene, and how many lines its words take.
#[derive(Drop)]
pub struct Demo<'t> {
    /// The list and, to its right, the words.
    pub scene: Scene<'t>,
    /// The number of lines into which the words are wrapped.
    pub lines: usize,
}

/// Returns the scene: n items in 20 columns, the middle one selected, and n words in 20 columns beside them, both 8
/// rows high. Fails with `NoMemory` if the items can't be allocated.
pub fn demo_scene<'t>(alloc: Global, n: u32, text: &'t str) -> Mem<Demo<'t>>
    requires n { n ≤ 100000 }
    requires text { text.now ≡ demo_text n }
    ensures scene { IfOk result (λ demo. demo.scene ≡ demo_scene n) }
    ensures lines { IfOk result (λ demo. HasLines n demo.lines) }
{
    let paragraph = demo_paragraph(alloc, text)?;
    let lines = lines_of(alloc, n, &paragraph)?;
    let list = List::new(alloc, demo_items(alloc, n)?)?.scroll_padding(1);
    let state = ListState::default().with_selected(Some(n as usize / 2));
    let mut scene = Scene::new(alloc);
    scene.push(Placed {
        area: Rect::new(0, 0, WIDTH, HEIGHT),
        item: Item::List(list, state),
    })?;
    scene.push(Placed {
        area: Rect::new(WIDTH, 0, WIDTH, HEIGHT),
        item: Item::Paragraph(paragraph),
    })?;
    Ok(Demo { scene, lines })
}

/// Returns the words as a paragraph, wrapped without the spaces at which lines break.
fn demo_paragraph<'t>(alloc: Global, text: &'t str) -> Mem<Paragraph<'t>>
    ensures { IfOk result (λ paragraph. paragraph_data paragraph ≡ demo_paragraph text.now) }
{
    let mut content = Text::new(alloc);
    content.push_line(Line::raw(alloc, text)?)?;
    Ok(Paragraph::new(content).wrap(Wrap {
        trim: true,
        hyphens: false,
    }))
}

/// Returns the number of lines of the words, which is far below 2^64.
fn lines_of(alloc: Global, n: u32, paragraph: &Paragraph<'_>) -> Mem<usize>
    requires n { n ≤ 100000 }
    requires is { paragraph_data paragraph.now ≡ demo_paragraph (demo_text n) }
    ensures { IfOk result (HasLines n) }
{
    text_wraps_exactly_once();
    paragraph.line_count(alloc, WIDTH)
}
