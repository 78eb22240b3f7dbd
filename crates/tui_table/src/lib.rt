//! Tables of rows and columns.
#![tactic(auto)]

pub mod cell;
mod cells;
mod grid;
pub mod laws;
mod plain;
pub mod row;
mod row_kind;
mod rows;
pub mod state;
pub mod table;
mod widths;
pub mod widths_error;

pub use cell::Cell;
pub use laws::table_laws;
pub use row::Row;
pub use state::TableState;
pub use table::Table;
pub use widths_error::WidthsError;
