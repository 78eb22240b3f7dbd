//! Why displays end.

/// Why a display of lines ended.
#[derive(Clone, Copy, Debug, PartialEq, Eq)]
pub enum DisplayEnd {
    /// The input ended, and all lines are shown.
    Ended,
    /// A line has more than 1,048,576 bytes.
    TooLong,
    /// A read failed.
    ReadFault,
    /// A write failed.
    WriteFault,
    /// Out of memory.
    NoMemory,
    /// `tui_app::MAX_READS` reads were made.
    ManyReads,
}
