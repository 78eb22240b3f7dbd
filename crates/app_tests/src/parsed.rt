//! Parsing the files of /proc.

use tui_watch_lib::{Load, Memory, Processors, Stat};

const LOADS: [(&str, Option<(u64, u64, u64)>); 6] = [
    ("0.52 0.58 0.59 2/310 4242\n", Some((52, 58, 59))),
    ("12.00 0.05 100.10 1/1 1", Some((1200, 5, 10010))),
    ("0.52 0.58", None),
    ("0.5 0.58 0.59", None),
    ("x.52 0.58 0.59", None),
    ("", None),
];

/// The total, what is available, the total of swap, and what is free of it.
const MEMORIES: [(&str, Option<(u64, u64, u64, u64)>); 4] = [
    (
        "MemTotal:   8 kB\nMemFree:  1 kB\nMemAvailable: 5 kB\nSwapTotal: 4 kB\nSwapFree: 3 kB\n",
        Some((8, 5, 4, 3)),
    ),
    ("MemTotal: 8 kB\nSwapTotal: 4 kB\nSwapFree: 3 kB\n", None),
    (
        "MemTotal: x kB\nMemAvailable: 5 kB\nSwapTotal: 4 kB\nSwapFree: 3 kB\n",
        None,
    ),
    ("", None),
];

/// The number of processors, their busy ticks, and their idle ticks.
const PROCESSORS: [(&str, Option<(u64, u64, u64)>); 6] = [
    (
        "cpu  100 0 50 600 50 1 2 3 9 9\ncpu0 50 0\ncpu1 50 0\nintr 5\n",
        Some((2, 156, 650)),
    ),
    ("cpu  1 2 3 4\n", Some((0, 6, 4))),
    ("cpu  1 2 3\n", None),
    ("cpu  1 2 x 4\n", None),
    ("cpu0 1 2 3 4\n", None),
    ("", None),
];

/// The name, the state and the ticks.
const STATS: [(&str, Option<(&str, &str, u64)>); 5] = [
    (
        "42 (my (odd) name) R 1 42 42 0 -1 4194304 10 0 0 0 55 5 7 7 20 0 1 0 130 8000000 512\n",
        Some(("my (odd) name", "R", 60)),
    ),
    (
        "1 (init) S 0 1 1 0 -1 0 0 0 0 0 3 4",
        Some(("init", "S", 7)),
    ),
    ("1 (init) S 0 1 1 0 -1 0 0 0 0 0 3", None),
    ("99 (gone", None),
    ("", None),
];

#[test]
fn loads(rt: HostRuntime) {
    for &(text, expected) in &LOADS {
        assert!(&rt; is_load(Load::parse(text), expected));
    }
}

#[test]
fn memories(rt: HostRuntime) {
    for &(text, expected) in &MEMORIES {
        assert!(&rt; is_memory(Memory::parse(text), expected));
    }
}

#[test]
fn processors(rt: HostRuntime) {
    for &(text, expected) in &PROCESSORS {
        assert!(&rt; is_processors(Processors::parse(text), expected));
    }
}

#[test]
fn stats(rt: HostRuntime) {
    for &(text, expected) in &STATS {
        assert!(&rt; is_stat(Stat::parse(text), expected));
    }
}

fn is_load(load: Option<Load>, expected: Option<(u64, u64, u64)>) -> bool {
    match (load, expected) {
        (Some(load), Some((one, five, fifteen))) => {
            load.one == one && load.five == five && load.fifteen == fifteen
        }
        (None, None) => true,
        _ => false,
    }
}

fn is_memory(memory: Option<Memory>, expected: Option<(u64, u64, u64, u64)>) -> bool {
    match (memory, expected) {
        (Some(memory), Some((total, available, swap_total, swap_free))) => {
            memory.total == total
                && memory.available == available
                && memory.swap_total == swap_total
                && memory.swap_free == swap_free
        }
        (None, None) => true,
        _ => false,
    }
}

fn is_processors(processors: Option<Processors>, expected: Option<(u64, u64, u64)>) -> bool {
    match (processors, expected) {
        (Some(processors), Some((count, busy, idle))) => {
            processors.count == count && processors.busy == busy && processors.idle == idle
        }
        (None, None) => true,
        _ => false,
    }
}

fn is_stat(stat: Option<Stat<'_>>, expected: Option<(&str, &str, u64)>) -> bool {
    match (stat, expected) {
        (Some(stat), Some((name, state, ticks))) => {
            stat.name == name && stat.state == state && stat.ticks == ticks
        }
        (None, None) => true,
        _ => false,
    }
}
