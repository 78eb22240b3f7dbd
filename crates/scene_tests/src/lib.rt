//! The tests of the library's crates from tui_frames on that need calls, apart from these crates, so that each is proved but once: the calls that no
//! program makes, and texts of errors. What the programs show is in the rows of scene_rows.
#![tactic(auto)]

#[cfg(test)]
mod bars;
#[cfg(test)]
mod blocks;
#[cfg(test)]
mod calendar;
#[cfg(test)]
mod drawing;
#[cfg(test)]
mod item;
#[cfg(test)]
mod lines;
#[cfg(test)]
mod lists;
#[cfg(test)]
mod pager;
#[cfg(test)]
mod paragraph;
#[cfg(test)]
mod table;
#[cfg(test)]
mod texts;
