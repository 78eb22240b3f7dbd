//! What a machine reports about itself.

use std::alloc::Global;
use tui_cells::Mem;

/// A folder laid out as /proc.
pub trait Machine {
    /// Returns the text of a file, by its path in the folder. The text is empty if the file can't be read. Bytes that
    /// are not UTF-8 are replaced by U+FFFD.
    fn text(&self, alloc: Global, path: &str) -> Mem<String>;

    /// Returns the names in the folder that are numbers, which are those of processes. Returns none if the folder can't
    /// be read.
    fn numbers(&self, alloc: Global) -> Mem<Vec<u32>>;
}
