//! The processes of a machine.

use crate::machine::Machine;
use crate::numbers::number_after;
use crate::processors::Processors;
use std::alloc::Global;
use tui_cells::Mem;

/// A process: its number, its name, and a letter for its state. `ticks` counts the processor ticks that it has used,
/// and `used` those since the last reading. `kilobytes` is its memory in kB.
#[derive(Drop)]
pub struct Process {
    pub number: u32,
    pub name: String,
    pub state: String,
    pub ticks: u64,
    pub used: u64,
    pub kilobytes: u64,
}

/// What `PID/stat` holds: the name in parentheses, and then the state. The eleventh and twelfth word after the state
/// are the ticks in user and in system mode; `ticks` is their sum.
#[derive(Clone, Copy)]
pub struct Stat<'a> {
    pub name: &'a str,
    pub state: &'a str,
    pub ticks: u64,
}

impl<'a> Stat<'a> {
    /// Parses `PID/stat`. Returns None if a word is missing. The name ends at the last closing parenthesis, since it
    /// may contain parentheses and spaces itself.
    pub fn parse(text: &'a str) -> Option<Stat<'a>> {
        let (head, tail) = text.rsplit_once(')')?;
        let (_, name) = head.split_once('(')?;
        let mut words = tail.split_ascii_whitespace();
        let state = words.next()?;
        let user = words.nth(10)?.parse::<u64>().ok()?;
        let system = words.next()?.parse::<u64>().ok()?;
        Some(Stat {
            name,
            state,
            ticks: user.saturating_add(system),
        })
    }
}

impl Process {
    /// Reads the process of a number. Returns None if its `stat` is missing or malformed, as it is for a process that
    /// has ended. A process whose `status` has no `VmRSS` line has no memory of its own.
    pub(crate) fn read<M: Machine>(
        alloc: Global,
        machine: &M,
        number: u32,
    ) -> Mem<Option<Process>> {
        let stat = text_of(alloc, machine, number, "stat")?;
        let Some(stat) = Stat::parse(stat.as_str()) else {
            return Ok(None);
        };
        let status = text_of(alloc, machine, number, "status")?;
        Ok(Some(Process {
            number,
            name: shown(alloc, stat.name)?,
            state: shown(alloc, stat.state)?,
            ticks: stat.ticks,
            used: stat.ticks,
            kilobytes: number_after(status.as_str(), "VmRSS:").unwrap_or(0),
        }))
    }
}

impl Process {
    /// Returns the share of one processor that it has used since the last reading, in thousandths. Returns None if the
    /// ticks since then are unknown.
    pub(crate) fn per_mille(&self, elapsed: Option<Processors>) -> Option<u64> {
        let elapsed = elapsed?;
        let of_all = self.used.saturating_mul(1000);
        of_all
            .saturating_mul(elapsed.count)
            .checked_div(elapsed.all())
    }
}

fn text_of<M: Machine>(alloc: Global, machine: &M, number: u32, file: &str) -> Mem<String> {
    let name = format!(in alloc; "{number}/{file}")?;
    machine.text(alloc, name.as_str())
}

// Replaces each control character of a text by U+FFFD.
fn shown(alloc: Global, text: &str) -> Mem<String> {
    let mut shown = String::new(alloc);
    for letter in text.chars() {
        shown.push(if letter.is_control() {
            '\u{fffd}'
        } else {
            letter
        })?;
    }
    Ok(shown)
}
