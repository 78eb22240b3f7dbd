//! The processors of a machine.

ghost use Rattle.std.specs.Prelude.{◌≤◌};

use crate::numbers::per_mille;

/// How many processors there are, and the ticks of all of them together: the busy ones and the idle ones.
#[derive(Clone, Copy, Debug, PartialEq, Eq)]
pub struct Processors {
    pub count: u64,
    pub busy: u64,
    pub idle: u64,
}

/// The number of tick counts after `cpu ` that are read: user, nice, system, idle, iowait, irq, softirq and steal. The
/// counts that follow are already included in these.
const TIMES: usize = 8;

impl Processors {
    /// Parses `stat`. Returns None if its first line isn't the one of all processors, with at least four numbers.
    pub fn parse(text: &str) -> Option<Processors> {
        let mut lines = text.lines();
        let (busy, idle) = times_in(lines.next()?.strip_prefix("cpu ")?)?;
        Some(Processors {
            count: lines.filter(|line| line.starts_with("cpu")).count() as u64,
            busy,
            idle,
        })
    }

    /// Returns the ticks altogether.
    pub fn all(&self) -> u64
        ensures { self.now.busy ≤ result }
    {
        self.busy.saturating_add(self.idle)
    }

    /// Returns the busy ticks in thousandths of all ticks.
    pub fn per_mille(&self) -> u64 {
        per_mille(self.busy, self.all())
    }

    /// Returns the counts before any tick.
    pub fn none() -> Processors {
        Processors {
            count: 0,
            busy: 0,
            idle: 0,
        }
    }
}

// Returns the busy ticks and the idle ticks of a line.
fn times_in(line: &str) -> Option<(u64, u64)> {
    let mut busy = 0u64;
    let mut idle = 0u64;
    let mut count = 0u8;
    for word in line.split_ascii_whitespace().take(TIMES) {
        let ticks = word.parse::<u64>().ok()?;
        if count == 3 || count == 4 {
            idle = idle.saturating_add(ticks);
        } else {
            busy = busy.saturating_add(ticks);
        }
        count = count.saturating_add(1);
    }
    if count < 4 { None } else { Some((busy, idle)) }
}
