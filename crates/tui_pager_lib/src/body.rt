//! The body of an entry.

ghost use Rattle.std.specs.Prelude.{◌≡◌, IfOk, length, map};
ghost use Rattle.tui_para.specs.Paragraph.{paragraph_data};
ghost use Rattle.tui_pager_lib.specs.Entry.{entry_data};
ghost use Rattle.tui_pager_lib.specs.Laws.{SelectsEntry};
ghost use Rattle.tui_pager_lib.specs.Screen.{body_of, body_paragraph, unframed};

use crate::entry::Entry;
use std::alloc::Global;
use tui_cells::Mem;
use tui_frames::Block;
use tui_para::{Paragraph, Wrap};
use tui_text::Text;

/// Returns a body from one of its lines on. It is wrapped, and spaces at which a line breaks are dropped.
fn unframed<'a>(alloc: Global, body: &'a str, line: u16) -> Mem<Paragraph<'a>>
    ensures { IfOk result (λ paragraph. paragraph_data paragraph ≡ unframed body.now line) }
{
    let text = Text::raw(alloc, body)?;
    Ok(
        Paragraph::new(text)
            .wrap(Wrap {
                trim: true,
                hyphens: false,
            })
            .scroll((line, 0)),
    )
}

/// Returns the same paragraph inside borders.
pub(crate) fn body_paragraph<'a>(alloc: Global, body: &'a str, line: u16) -> Mem<Paragraph<'a>>
    ensures { IfOk result (λ paragraph. paragraph_data paragraph ≡ body_paragraph body.now line) }
{
    Ok(unframed(alloc, body, line)?.block(Block::bordered(alloc)))
}

/// Returns the body of the selected entry, or an empty one if none is selected.
pub(crate) fn selected_body<'a>(entries: &[Entry<'a>], selected: Option<usize>) -> &'a str
    requires { SelectsEntry (length entries.now) selected }
    ensures { result.now ≡ body_of (map entry_data entries.now) selected }
{
    match selected {
        None => "",
        Some(place) => entries[place].body,
    }
}
