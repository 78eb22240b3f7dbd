//! The tests of tui_cells, tui_layout and tui_text, apart from them, so that each is proved but once: the calls that no program makes, Debug texts, and
//! definitions by values worked out by hand.
#![tactic(auto)]

#[cfg(test)]
mod cells;
#[cfg(test)]
mod debug;
#[cfg(test)]
mod layout;
#[cfg(test)]
mod painting;
#[cfg(test)]
mod text;
