//! Input and output, printing and the schema under one name: what a program needs to read a scene and to print it.
#![tactic(auto)]

pub use tui_io::{
    CHUNK, Failed, LIMIT, MemSink, MemSource, Print, ReadEnd, Sink, Source, StdSink, StdSource,
    WriteFault, read_all, write_all,
};
pub use tui_print::{emit_runs, emit_screen, emit_states, print_laws, write_screen};
pub use tui_rows::{emit_rows, emit_symbols, write_rows};
pub use tui_schema::{Field, Reading, SceneError, constraint_of, item_of, scene_of};
