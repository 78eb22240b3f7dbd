//! Reports: records of strings in columns, cut into pages.

pub use tui_pages_lib::{Column, Pages, Piece, Record, Report, ReportError};
