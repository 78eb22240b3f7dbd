//! What is read from a machine at a tick.

use crate::load::Load;
use crate::machine::Machine;
use crate::memory::Memory;
use crate::numbers::first_number;
use crate::process::Process;
use crate::processors::Processors;
use std::alloc::Global;
use std::cmp::Reverse;
use tui_cells::Mem;

/// What was read from a machine at a tick. What was missing or malformed is None. `uptime` is in seconds.
#[derive(Drop)]
pub struct MachineReading {
    pub load: Option<Load>,
    pub memory: Option<Memory>,
    pub processors: Option<Processors>,
    pub uptime: Option<u64>,
    pub processes: Vec<Process>,
    /// The ticks since the last reading.
    pub elapsed: Option<Processors>,
}

impl MachineReading {
    /// Returns the empty reading before the first one. The first reading then counts its ticks from the start of the
    /// machine.
    pub(crate) fn none(alloc: Global) -> MachineReading {
        MachineReading {
            load: None,
            memory: None,
            processors: None,
            uptime: None,
            processes: Vec::new(alloc),
            elapsed: None,
        }
    }

    /// Reads the machine, and counts the ticks since the reading before. The processes that used most processor time
    /// since then come first. Then those with most memory do, and then those with the lowest numbers.
    pub(crate) fn take<M: Machine>(
        alloc: Global,
        machine: &M,
        before: &mut MachineReading,
    ) -> Mem<MachineReading> {
        let load = machine.text(alloc, "loadavg")?;
        let memory = machine.text(alloc, "meminfo")?;
        let stat = machine.text(alloc, "stat")?;
        let uptime = machine.text(alloc, "uptime")?;
        let processors = Processors::parse(stat.as_str());
        let mut processes = read_processes(alloc, machine)?;
        count_use(&mut processes, &mut before.processes);
        sort_by_use(&mut processes);
        Ok(MachineReading {
            load: Load::parse(load.as_str()),
            memory: Memory::parse(memory.as_str()),
            processors,
            uptime: seconds_in(uptime.as_str()),
            processes,
            elapsed: elapsed(processors, before.processors),
        })
    }
}

// Returns the whole seconds of `uptime`, whose first word has a fraction.
fn seconds_in(text: &str) -> Option<u64> {
    let (whole, _) = text.split_once('.')?;
    first_number(whole)
}

fn read_processes<M: Machine>(alloc: Global, machine: &M) -> Mem<Vec<Process>> {
    let numbers = machine.numbers(alloc)?;
    let mut processes = Vec::new(alloc);
    for number in numbers.iter() {
        if let Some(process) = Process::read(alloc, machine, *number)? {
            processes.push(process)?;
        }
    }
    Ok(processes)
}

// Counts for each process the ticks that it has used since the reading before, if it was in that.
fn count_use(processes: &mut Vec<Process>, before: &mut Vec<Process>) {
    before.sort_unstable_by_key(|process| process.number);
    for process in processes.iter_mut() {
        let ticks = ticks_of(before, process.number);
        process.used = process.ticks.saturating_sub(ticks);
    }
}

fn ticks_of(processes: &[Process], number: u32) -> u64 {
    match processes.binary_search_by_key(&number, |process| process.number) {
        Ok(place) => processes[place].ticks,
        Err(_) => 0,
    }
}

fn sort_by_use(processes: &mut Vec<Process>) {
    processes.sort_unstable_by_key(|process| {
        (
            Reverse(process.used),
            Reverse(process.kilobytes),
            process.number,
        )
    });
}

fn elapsed(now: Option<Processors>, before: Option<Processors>) -> Option<Processors> {
    let now = now?;
    let before = before.unwrap_or(Processors::none());
    Some(Processors {
        count: now.count,
        busy: now.busy.saturating_sub(before.busy),
        idle: now.idle.saturating_sub(before.idle),
    })
}
