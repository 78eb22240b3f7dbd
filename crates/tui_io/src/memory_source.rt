//! Sources in memory that fail at chosen calls.

ghost use Rattle.std.specs.Prelude.{◌≡◌, ◌↔◌, min, length, Some, IsErr, OnErr, Contains, IfOk};
ghost use Rattle.std.specs.Io.{ReadsAtMost};
ghost use Rattle.std.specs.Io.KnownBytes.{ReadConsumes};
ghost use Rattle.tui_io.specs.Causes.{HasCause, counted};

use crate::source::{Failed, Source};
use std::marker::Model;

/// A source in memory. Calls whose numbers are listed in `failing` fail; the first call has number 1.
#[derive(Drop)]
pub struct MemSource {
    bytes: Vec<u8>,
    at: usize,
    failing: Vec<u64>,
    calls: u64,
    io_errors: u64,
}

impl Model for MemSource {
    ghost use Rattle.std.specs.Prelude.{◌≤◌, drop, vec_len};
    ghost use Rattle.tui_io.specs.Memory.{SourceState};

    ghost Value = { SourceState };

    ghost view = { λ s. record {
      left = drop s.at s.bytes.items;
      failing = s.failing.items;
      calls = s.calls;
      io_errors = s.io_errors;
    } };

    ghost invariant = { λ s. s.at ≤ vec_len s.bytes };
}

impl MemSource {
    /// Creates a source of these bytes. No call has been made yet.
    pub fn new(bytes: Vec<u8>, failing: Vec<u64>) -> MemSource
        ensures { result ≡ record { left = bytes.items; failing = failing.items; calls = 0; io_errors = 0 } }
    {
        MemSource {
            bytes,
            at: 0,
            failing,
            calls: 0,
            io_errors: 0,
        }
    }
}

impl Source for MemSource {
    ghost observed = { λ s. record { bytes = Some s.left; io_errors = s.io_errors } };

    /// Fills `into` with as many of the remaining bytes as it has room for. Call number k fails exactly if k
    /// is listed. The call counter saturates.
    fn read(&mut self, into: &mut [u8]) -> Result<usize, Failed>
        ensures bound { ReadsAtMost result into.new }
        ensures bytes { ReadConsumes (Some self.old.left) (Some self.new.left) result into.new }
        ensures cause { HasCause self.old.io_errors self.new.io_errors result }

        // Exactly which calls fail, and what does not change.
        ensures number { self.new.calls ≡ counted self.old.calls }
        ensures listed { IsErr result ↔ Contains self.old.failing self.new.calls }
        ensures all { IfOk result (λ n. n ≡ min (length into.new) (length self.old.left)) }
        ensures io_error { OnErr result (self.new.io_errors ≡ counted self.old.io_errors) }
        ensures list { self.new.failing ≡ self.old.failing }
    {
        self.calls = self.calls.saturating_add(1);
        let calls = self.calls;
        if self.failing.contains(&calls) {
            self.io_errors = self.io_errors.saturating_add(1);
            return Err(Failed);
        }
        let rest = &self.bytes[self.at..];
        let count = rest.len().min(into.len());
        into[..count].copy_from_slice(&rest[..count]);
        self.at += count;
        Ok(count)
    }
}
