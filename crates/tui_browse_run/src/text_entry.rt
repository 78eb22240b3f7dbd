//! The entries of a text.

ghost use Rattle.std.specs.Prelude.{◌≡◌, IfOk, map};
ghost use Rattle.tui_browse_run.specs.Pieces.{entry_of, first_line, piece_data};
ghost use Rattle.tui_browse_run.specs.TextEntry.{text_entry_data};
ghost use Rattle.tui_pager_lib.specs.Entry.{entry_data};

use crate::piece::TextPiece;
use std::alloc::Global;
use tui_cells::Mem;
use tui_pager_lib::Entry;

/// An entry that owns its texts.
#[derive(Drop)]
pub(crate) struct TextEntry {
    title: String,
    body: String,
}

/// Returns an entry for each piece. Its title is the number of the piece's first line, a space, and that line, as far
/// as it is in the piece.
pub(crate) fn text_entries(alloc: Global, pieces: &[TextPiece<'_>]) -> Mem<Vec<TextEntry>>
    ensures { IfOk result (λ entries. map text_entry_data entries.items ≡ map (λ p. entry_of (piece_data p)) pieces.now) }
{
    let mut entries = Vec::with_capacity(alloc, pieces.len())?;
    'pieces: for i in 0..pieces.len() {
        entries.push(text_entry(alloc, &pieces[i])?)?;
    }
    Ok(entries)
}

fn text_entry(alloc: Global, piece: &TextPiece<'_>) -> Mem<TextEntry>
    ensures { IfOk result (λ entry. text_entry_data entry ≡ entry_of (piece_data piece.now)) }
{
    let line = first_line(piece.body);
    Ok(TextEntry {
        title: format!(in alloc; "{} {}", piece.line, line)?,
        body: String::from_str(alloc, piece.body)?,
    })
}

/// Returns the text before the first line feed, or all of it if there is none.
fn first_line(text: &str) -> &str
    ensures { result.now ≡ first_line text.now }
{
    match text.split_once('\n') {
        Some((line, _)) => line,
        None => text,
    }
}

/// Returns entries that borrow these texts.
pub(crate) fn borrowed_entries<'e>(alloc: Global, entries: &'e [TextEntry]) -> Mem<Vec<Entry<'e>>>
    ensures { IfOk result (λ borrowed. map entry_data borrowed.items ≡ map text_entry_data entries.now) }
{
    let mut borrowed = Vec::with_capacity(alloc, entries.len())?;
    'entries: for i in 0..entries.len() {
        let entry = &entries[i];
        borrowed.push(Entry {
            title: entry.title.as_str(),
            body: entry.body.as_str(),
        })?;
    }
    Ok(borrowed)
}
