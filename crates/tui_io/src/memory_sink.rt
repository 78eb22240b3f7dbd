//! Sinks in memory that fail at chosen calls.

ghost use Rattle.std.specs.Prelude.{◌≡◌, ◌-◌, ◌<◌, ◌↔◌, ◌⊎◌, min, [], length, Some, IsErr, OnErr, Contains, IfOk};
ghost use Rattle.std.specs.Io.{WritesAtMost};
ghost use Rattle.std.specs.Io.KnownBytes.{WriteAppends};
ghost use Rattle.tui_io.specs.Causes.{HasCause, counted};

use crate::sink::Sink;
use crate::source::Failed;
use std::alloc::Global;
use std::marker::Model;
use tui_cells::Mem;

/// A sink in memory with room for `capacity` bytes. Calls whose numbers are listed in `failing` fail; the
/// first call has number 1.
#[derive(Drop)]
pub struct MemSink {
    bytes: Vec<u8>,
    capacity: usize,
    failing: Vec<u64>,
    calls: u64,
    io_errors: u64,
}

impl Model for MemSink {
    ghost use Rattle.std.specs.Prelude.{◌≤◌, vec_len, vec_capacity};
    ghost use Rattle.tui_io.specs.Memory.{SinkState};

    ghost Value = { SinkState };

    ghost view = { λ s. record {
      held = s.bytes.items;
      capacity = s.capacity;
      failing = s.failing.items;
      calls = s.calls;
      io_errors = s.io_errors;
    } };

    // The capacity is reserved, so that no write allocates.
    ghost invariant = { λ s. (vec_len s.bytes ≤ s.capacity) × (s.capacity ≤ vec_capacity s.bytes) };
}

impl MemSink {
    /// Creates an empty sink and reserves its capacity. No call has been made yet.
    pub fn new(alloc: Global, capacity: usize, failing: Vec<u64>) -> Mem<MemSink>
        ensures { IfOk result (λ s. s ≡ record { held = []; capacity = capacity; failing = failing.items; calls = 0; io_errors = 0 }) }
    {
        Ok(MemSink {
            bytes: Vec::with_capacity(alloc, capacity)?,
            capacity,
            failing,
            calls: 0,
            io_errors: 0,
        })
    }

    /// Returns the bytes that were written.
    pub fn bytes(&self) -> &[u8]
        ensures { result.now ≡ self.now.held }
    {
        self.bytes.as_slice()
    }
}

impl Sink for MemSink {
    ghost observed = { λ s. record { bytes = Some s.held; io_errors = s.io_errors } };

    /// Takes as many bytes as there is room for. Call number k fails exactly if k is listed, or if a nonempty
    /// piece finds no room. The call counter saturates.
    fn put(&mut self, bytes: &[u8]) -> Result<usize, Failed>
        ensures bound { WritesAtMost result bytes.now }
        ensures some { IfOk result (λ n. 0 < length bytes.now → 0 < n) }
        ensures bytes { WriteAppends (Some self.old.held) (Some self.new.held) result bytes.now }
        ensures cause { HasCause self.old.io_errors self.new.io_errors result }

        // Exactly which calls fail, and what does not change.
        ensures number { self.new.calls ≡ counted self.old.calls }
        ensures listed { IsErr result ↔ (Contains self.old.failing self.new.calls
            ⊎ ((0 < length bytes.now) × (length self.old.held ≡ self.old.capacity))) }
        ensures all { IfOk result (λ n. n ≡ min (length bytes.now) (self.old.capacity - length self.old.held)) }
        ensures io_error { OnErr result (self.new.io_errors ≡ counted self.old.io_errors) }
        ensures list { (self.new.failing ≡ self.old.failing) × (self.new.capacity ≡ self.old.capacity) }
    {
        self.calls = self.calls.saturating_add(1);
        let calls = self.calls;
        let room = self.capacity - self.bytes.len();
        if self.failing.contains(&calls) || (room == 0 && !bytes.is_empty()) {
            self.io_errors = self.io_errors.saturating_add(1);
            return Err(Failed);
        }
        let count = bytes.len().min(room);
        self.bytes.extend_from_slice(&bytes[..count]).unwrap();
        Ok(count)
    }
}
