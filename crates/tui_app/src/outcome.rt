//! Why sessions end.

/// The largest number of reads in a session. At a thousand reads a second it is reached after seven weeks.
pub const MAX_READS: u64 = 4_294_967_296;

/// Why a session ended.
#[derive(Clone, Copy, Debug, PartialEq, Eq)]
pub enum AppEnd {
    /// The app quit.
    Quit,
    /// The input ended.
    Ended,
    /// A read failed.
    ReadFault,
    /// A write failed.
    WriteFault,
    /// Out of memory.
    NoMemory,
    /// `MAX_READS` reads were made.
    ManyReads,
}
