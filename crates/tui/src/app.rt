//! Interactive programs. An app handles what the terminal sends and draws itself; `run` shows on the terminal what it
//! draws.

pub use tui_app::{
    App, AppEnd, Flow, IoTerminal, MAX_READS, MemTerminal, READ_CAPACITY, Terminal, draw_too_small,
    run, run_over,
};
