//! The memory of a machine.

ghost use Rattle.std.specs.Prelude.{◌≡◌, ◌-◌};

use crate::numbers::{number_after, per_mille};

/// Memory in kB (1024 bytes): the total, what is available to programs, the total of swap, and what is free of it.
#[derive(Clone, Copy, Debug, PartialEq, Eq)]
pub struct Memory {
    pub total: u64,
    pub available: u64,
    pub swap_total: u64,
    pub swap_free: u64,
}

impl Memory {
    /// Parses `meminfo`. Returns None if one of the four lines is missing or has no number.
    pub fn parse(text: &str) -> Option<Memory> {
        Some(Memory {
            total: number_after(text, "MemTotal:")?,
            available: number_after(text, "MemAvailable:")?,
            swap_total: number_after(text, "SwapTotal:")?,
            swap_free: number_after(text, "SwapFree:")?,
        })
    }

    /// Returns how much memory is used.
    pub fn used(&self) -> u64
        ensures { result ≡ self.now.total - self.now.available }
    {
        self.total.saturating_sub(self.available)
    }

    /// Returns how much swap is used.
    pub fn swap_used(&self) -> u64
        ensures { result ≡ self.now.swap_total - self.now.swap_free }
    {
        self.swap_total.saturating_sub(self.swap_free)
    }

    /// Returns the used memory in thousandths of the total.
    pub fn per_mille(&self) -> u64 {
        per_mille(self.used(), self.total)
    }
}
