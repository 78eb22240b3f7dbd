//! Buffers of cells, and the result of calls that allocate.

pub use tui_cells::{Attributes, Buffer, Cell, Mem, NoMemory};
pub use tui_text::{VisibleCells, row_text, symbol_columns, visible_cells};
