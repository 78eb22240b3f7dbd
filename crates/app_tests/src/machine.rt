//! A machine with scripted readings.

use std::alloc::Global;
use std::cell::Cell;
use tui_cells::Mem;
use tui_watch_lib::Machine;

/// A machine with two readings, and then one in which everything is missing or malformed.
#[derive(Drop)]
pub(crate) struct Scripted {
    /// How many readings have begun: each reads `loadavg` once.
    pub(crate) readings: Cell<u32>,
}

impl Machine for Scripted {
    fn text(&self, alloc: Global, path: &str) -> Mem<String> {
        if path == "loadavg" {
            self.readings.set(self.readings.get().saturating_add(1));
        }
        let text = match self.readings.get() {
            1 => first(path),
            2 => second(path),
            _ => malformed(path),
        };
        Ok(String::from_str(alloc, text)?)
    }

    fn numbers(&self, alloc: Global) -> Mem<Vec<u32>> {
        let mut numbers = Vec::new(alloc);
        if self.readings.get() < 3 {
            for number in [42, 7, 1, 99, 77] {
                numbers.push(number)?;
            }
        }
        Ok(numbers)
    }
}

/// The memory is half used, and the swap is a quarter used.
const MEMORY: &str =
    "MemTotal:        8167848 kB\nMemFree:         1048576 kB\nMemAvailable:    4083924 kB\nSwapTotal:       2097148 kB\nSwapFree:        1572861 kB\n";

// 150 of 800 ticks are busy; process 77 has not started.
fn first(path: &str) -> &'static str {
    match path {
        "loadavg" => "0.52 0.58 0.59 2/310 4242\n",
        "meminfo" => MEMORY,
        "stat" =>
            "cpu  100 0 50 600 50 0 0 0 0 0\ncpu0 50 0 25 300 25\ncpu1 50 0 25 300 25\nintr 4242\n",
        "uptime" => "352507.11 1200034.50\n",
        "1/stat" => "1 (systemd) S 0 1 1 0 -1 4194560 10 20 0 0 20 20 5 5 20 0 1 0 100\n",
        "1/status" => "Name:\tsystemd\nVmRSS:\t   12288 kB\n",
        "7/stat" => "7 (kworker/0:1) I 2 0 0 0 -1 69238880 0 0 0 0 0 0 0 0 20 0 1 0 110\n",
        "42/stat" => "42 (my (odd) name) R 1 42 42 0 -1 4194304 10 0 0 0 55 5 0 0 20\n",
        "42/status" => "Name:\tmy (odd) name\nVmRSS:\t    2048 kB\n",
        "99/stat" => "99 (gone\n",
        _ => "",
    }
}

// 100 of 200 more ticks are busy: 10 by process 1, and 30 by process 77, which is new.
fn second(path: &str) -> &'static str {
    match path {
        "loadavg" => "1.04 0.60 0.59 1/310 4243\n",
        "stat" =>
            "cpu  190 0 60 650 100 0 0 0 0 0\ncpu0 95 0 30 325 50\ncpu1 95 0 30 325 50\nintr 4243\n",
        "uptime" => "352568.20 1200034.50\n",
        "1/stat" => "1 (systemd) S 0 1 1 0 -1 4194560 10 20 0 0 25 25 5 5 20 0 1 0 100\n",
        "77/stat" => "77 (a\tb) R 1 77 77 0 -1 4194304 10 0 0 0 0 30 0 0 20\n",
        _ => first(path),
    }
}

fn malformed(path: &str) -> &'static str {
    match path {
        "loadavg" => "much\n",
        "meminfo" => "MemTotal:        8167848 kB\n",
        "stat" => "intr 4242\n",
        _ => "",
    }
}
