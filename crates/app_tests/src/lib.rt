//! The tests of interactive programs: of sessions and displays on a terminal in memory, of text inputs, of the browser of folders and of the dashboard.
//! They are apart from the crates that they test, so that each of those is proved but once.
#![tactic(auto)]

#[cfg(test)]
mod displays;
#[cfg(test)]
mod dot;
#[cfg(test)]
mod files;
#[cfg(test)]
mod folders;
#[cfg(test)]
mod inputs;
#[cfg(test)]
mod last;
#[cfg(test)]
mod machine;
#[cfg(test)]
mod parsed;
#[cfg(test)]
mod progress;
#[cfg(test)]
mod sessions;
#[cfg(test)]
mod trace;
#[cfg(test)]
mod typing;
#[cfg(test)]
mod watch;
