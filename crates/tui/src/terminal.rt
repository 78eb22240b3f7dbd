//! Buffers on a terminal, and its input. Some calls write bytes that make any terminal show a buffer; others turn the
//! screen of one buffer into that of another. Sinks take the bytes, and a decoder turns terminal input into events.

pub use tui_io::{Failed, MemSink, MemSource, Sink, Source, StdSink, StdSource, WriteFault};
pub use tui_keys::{Decoded, Event, KeyDecoder, Modifiers, Motion};
pub use tui_terminal::{
    depth_of, enter, leave, settle, write_changes, write_full, write_styled_rows,
};
pub use tui_terminal_model::{Cursor, Depth, KnownWidths, Output};
