//! The library under one name: the public items of the crates below, in modules named like those of ratatui.
#![tactic(auto)]

pub mod app;
pub mod buffer;
pub mod display;
pub mod input;
pub mod layout;
pub mod pager;
pub mod panes;
pub mod plain;
pub mod report;
pub mod scene;
pub mod style;
pub mod symbols;
pub mod terminal;
pub mod text;
pub mod widgets;
