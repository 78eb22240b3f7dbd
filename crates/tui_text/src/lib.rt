//! Texts of styled spans, with their lines and graphemes.
#![tactic(auto)]

pub mod alignment;
pub mod grapheme;
pub mod graphemes;
pub mod line;
pub mod painting;
mod plain;
mod row;
pub mod setting;
pub mod span;
pub mod text;
pub mod visible;
mod visible_text;
mod width;

pub use alignment::Alignment;
pub use grapheme::StyledGrapheme;
pub use graphemes::Graphemes;
pub use line::Line;
pub use painting::{below, paint_line, paint_row, paint_rows, paint_spans, paint_text};
pub use setting::{set_line, set_line_in, set_span, set_span_in, set_stringn, set_stringn_in};
pub use span::Span;
pub use text::Text;
pub use tui_clusters::{cell_width, printable_byte};
pub use visible::{VisibleCells, symbol_columns, visible_cells};
pub use visible_text::row_text;
