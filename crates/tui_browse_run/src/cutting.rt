//! Where the first piece of a text ends.

ghost use Rattle.std.specs.Prelude.{◌≡◌, ◌<◌, length, take};
ghost use Rattle.std.specs.Str.{IsCharBoundary};
ghost use Rattle.tui_browse_run.specs.Cuts.{AreWholeLines};
ghost use Rattle.tui_browse_run.specs.Pieces.{IsPieceEnd, line_feeds};

/// The most lines that a piece may have.
pub(crate) const MOST_LINES: usize = 1000;

/// The most bytes that a piece may have.
pub(crate) const MOST_BYTES: usize = 65_536;

const LINE_FEED: u8 = 10;

/// The first part of a text: its length in bytes, and how many of these are line feeds.
#[derive(Clone, Copy)]
pub(crate) struct Cut {
    pub(crate) len: usize,
    pub(crate) line_feeds: usize,
}

/// Returns the first piece of a text that is not empty.
pub(crate) fn first_piece(text: &str) -> Cut
    requires { 0 < length text.now }
    ensures ends { IsPieceEnd text.now result.len }
    ensures boundary { IsCharBoundary text.now result.len }
    ensures line_feeds { result.line_feeds ≡ line_feeds (take result.len text.now) }
{
    let bytes = text.as_bytes();
    let within = bytes.len().min(MOST_BYTES);
    let lines = whole_lines(&bytes[..within]);
    if lines.line_feeds == MOST_LINES {
        return lines;
    }
    if within == bytes.len() {
        return Cut {
            len: within,
            line_feeds: lines.line_feeds,
        };
    }
    if 0 < lines.len {
        return lines;
    }
    Cut {
        len: text.floor_char_boundary(within),
        line_feeds: lines.line_feeds,
    }
}

/// Returns the leading lines that end with a line feed, at most as many as a piece may have.
fn whole_lines(bytes: &[u8]) -> Cut
    ensures { AreWholeLines bytes.now result.len result.line_feeds }
{
    let mut lines = Cut {
        len: 0,
        line_feeds: 0,
    };
    'bytes: for i in 0..bytes.len() {
        if bytes[i] == LINE_FEED {
            lines = Cut {
                len: i + 1,
                line_feeds: lines.line_feeds + 1,
            };
            if lines.line_feeds == MOST_LINES {
                return lines;
            }
        }
    }
    lines
}
