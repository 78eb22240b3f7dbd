//! Text, lines, spans and graphemes, and how they are painted into a buffer.

pub use tui_clusters::cell_width;
pub use tui_line_places::{Lines, after_line, first_part, from_line, line_offsets};
pub use tui_text::{
    Graphemes, Line, Span, StyledGrapheme, Text, below, paint_line, paint_row, paint_rows,
    paint_spans, paint_text, set_line, set_line_in, set_span, set_span_in, set_stringn,
    set_stringn_in,
};
