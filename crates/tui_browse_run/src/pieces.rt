//! The pieces of a text.

ghost use Rattle.tui_browse_run.specs.Pieces.{IsCut};

use crate::cutting::first_piece;
use crate::piece::TextPiece;
use std::alloc::Global;
use tui_program::{Outcome, Stop};

/// The most pieces that a text may have.
const MOST_PIECES: usize = 1000;

/// Cuts a text into pieces, of which there may be at most 1,000. Fails with `TooLong` if there are more.
pub fn pieces_of<R>(alloc: Global, text: &str) -> Outcome<Vec<TextPiece<'_>>, R>
    ensures { IsCut text.now result }
{
    let mut pieces = Vec::new(alloc);
    let mut rest = text;
    let mut line = 1;
    'pieces: for _i in 0..MOST_PIECES {
        if rest.is_empty() {
            return Ok(pieces);
        }
        let cut = first_piece(rest);
        let (body, after) = rest.split_at(cut.len);
        pieces.push(TextPiece { line, body })?;
        rest = after;
        line += cut.line_feeds;
    }
    if rest.is_empty() {
        Ok(pieces)
    } else {
        Err(Stop::TooLong)
    }
}
