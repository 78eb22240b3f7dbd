//! Terminals in memory.

ghost use Rattle.std.specs.Prelude.{
  ◌≡◌,
  ◌+◌,
  ◌-◌,
  ◌<◌,
  ◌≤◌,
  ◌↔◌,
  ◌⊎◌,
  [],
  ◌∷◌,
  ◌++◌,
  Contains,
  IfOk,
  IsErr,
  MatchResult,
  OnErr,
  OnOk,
  Some,
  drop,
  length,
  map,
  min,
  take,
  vec_len,
  vec_capacity,
};
ghost use Rattle.std.specs.Io.{ReadsAtMost, WritesAtMost};
ghost use Rattle.std.specs.Io.KnownBytes.{WriteAppends};
ghost use Rattle.tui_app.specs.Memory.{next_read_len};
ghost use Rattle.tui_app.specs.Trace.{ReadFailed, Traced, read_entry};
ghost use Rattle.tui_io.specs.Causes.{HasCause, counted};

use crate::terminal::{READ_CAPACITY, Terminal};
use std::alloc::Global;
use std::marker::Model;
use tui_cells::Mem;
use tui_io::{Failed, Sink};

/// The mark of a read in the trace. After it come the bytes of the read, counted from `GIVEN` on, so that
/// they differ from written bytes.
const MARK: u16 = 256;

const GIVEN: u16 = 257;

/// A terminal in memory, whose trace has room for `capacity` marks and bytes. It gives the reads that were
/// added by `queue_read`, one after another, and then the end of the input.
///
/// Calls whose numbers are listed in `failing` fail, where reads and writes count together and the first call
/// has number 1. A call that finds no room in the trace fails too.
#[derive(Drop)]
pub struct MemTerminal {
    trace: Vec<u16>,
    capacity: usize,
    input: Vec<u8>,
    at: usize,
    lengths: Vec<usize>,
    next: usize,
    failing: Vec<u64>,
    calls: u64,
    io_errors: u64,
}

impl Model for MemTerminal {
    ghost use Rattle.std.specs.Prelude.{◌≤◌, drop, vec_len, vec_capacity};
    ghost use Rattle.tui_app.specs.Memory.{TerminalState};

    ghost Value = { TerminalState };

    ghost view = { λ t. record {
      trace = t.trace.items;
      capacity = t.capacity;
      left = drop t.at t.input.items;
      lengths = drop t.next t.lengths.items;
      failing = t.failing.items;
      calls = t.calls;
      io_errors = t.io_errors;
    } };

    // The capacity is reserved, so that no call allocates.
    ghost invariant = { λ t. (vec_len t.trace ≤ t.capacity) × (t.capacity ≤ vec_capacity t.trace) × (t.at ≤ vec_len t.input) × (t.next ≤ vec_len t.lengths) };
}

impl MemTerminal {
    /// Creates a terminal with an empty trace and no reads to give, and reserves its capacity. No call
    /// has been made yet.
    pub fn new(alloc: Global, capacity: usize, failing: Vec<u64>) -> Mem<MemTerminal>
        ensures { IfOk result (λ t. t ≡ record {
          trace = [];
          capacity = capacity;
          left = [];
          lengths = [];
          failing = failing.items;
          calls = 0;
          io_errors = 0;
        }) }
    {
        Ok(MemTerminal {
            trace: Vec::with_capacity(alloc, capacity)?,
            capacity,
            input: Vec::new(alloc),
            at: 0,
            lengths: Vec::new(alloc),
            next: 0,
            failing,
            calls: 0,
            io_errors: 0,
        })
    }

    /// Adds a read after those that were added before. `NoMemory` changes nothing.
    pub fn queue_read(&mut self, bytes: &[u8]) -> Mem<()>
        requires { length bytes.now ≤ READ_CAPACITY }
        ensures ok { OnOk result (self.new ≡ record self.old { left = self.old.left ++ bytes.now; lengths = self.old.lengths ++ length bytes.now ∷ [] }) }
        ensures err { OnErr result (self.new ≡ self.old) }
    {
        // The room for the length is reserved first, so that a read is added completely or not at all.
        self.lengths.reserve(1)?;
        self.input.extend_from_slice(bytes)?;
        self.lengths.push(bytes.len()).unwrap();
        Ok(())
    }

    /// Returns the trace: the written bytes, and for each read 256 and then its bytes, each plus 257.
    pub fn trace(&self) -> &[u16]
        ensures { result.now ≡ self.now.trace }
    {
        self.trace.as_slice()
    }

    // The length of the next read.
    fn next_read_len(&self) -> usize
        ensures next { result ≡ next_read_len self.now }
        ensures within { result ≤ length self.now.left }
        ensures room { result ≤ READ_CAPACITY }
    {
        let left = self.input.len() - self.at;
        if self.next < self.lengths.len() {
            self.lengths[self.next].min(left).min(READ_CAPACITY)
        } else {
            0
        }
    }
}

// Appends bytes to a trace that has room for them.
fn extend(trace: &mut Vec<u16>, bytes: &[u8], above: u16)
    requires room { vec_len trace.old + length bytes.now ≤ vec_capacity trace.old }
    requires small { above ≤ 257 }
    ensures items { trace.new.items ≡ trace.old.items ++ map (λ b. above + b) bytes.now }
    ensures capacity { vec_capacity trace.old ≤ vec_capacity trace.new }
{
    'bytes: for i in 0..bytes.len() {
        trace.push(above + u16::from(bytes[i])).unwrap();
    }
}

impl Sink for MemTerminal {
    ghost use Rattle.std.specs.Prelude.{Some};

    ghost observed = { λ t. record { bytes = Some t.trace; io_errors = t.io_errors } };

    /// Takes as many bytes as there is room for. Call number k fails exactly if k is listed, or if a nonempty
    /// piece finds no room. The call counter saturates.
    fn put(&mut self, bytes: &[u8]) -> Result<usize, Failed>
        ensures bound { WritesAtMost result bytes.now }
        ensures some { IfOk result (λ n. 0 < length bytes.now → 0 < n) }
        ensures bytes { WriteAppends (Some self.old.trace) (Some self.new.trace) result bytes.now }
        ensures cause { HasCause self.old.io_errors self.new.io_errors result }

        // Exactly which calls fail, and what does not change.
        ensures number { self.new.calls ≡ counted self.old.calls }
        ensures listed { IsErr result ↔ (Contains self.old.failing self.new.calls
            ⊎ ((0 < length bytes.now) × (length self.old.trace ≡ self.old.capacity))) }
        ensures all { IfOk result (λ n. n ≡ min (length bytes.now) (self.old.capacity - length self.old.trace)) }
        ensures stays { self.new ≡ record self.old { trace = self.new.trace; calls = self.new.calls; io_errors = self.new.io_errors } }
    {
        self.calls = self.calls.saturating_add(1);
        let calls = self.calls;
        let room = self.capacity - self.trace.len();
        if self.failing.contains(&calls) || (room == 0 && !bytes.is_empty()) {
            self.io_errors = self.io_errors.saturating_add(1);
            return Err(Failed);
        }
        let count = bytes.len().min(room);
        extend(&mut self.trace, &bytes[..count], 0);
        Ok(count)
    }
}

impl Terminal for MemTerminal {
    /// Gives the next read. Call number k fails exactly if k is listed, or if the trace has no room for
    /// the mark and the bytes. The call counter saturates. A failed call loses nothing: the next call
    /// gives the same read.
    fn wait(&mut self, into: &mut [u8; READ_CAPACITY]) -> Result<usize, Failed>
        ensures bound { ReadsAtMost result into.new }
        ensures trace { MatchResult result
            (λ n. Traced (record { bytes = Some self.old.trace; io_errors = self.old.io_errors }) (record { bytes = Some self.new.trace; io_errors = self.new.io_errors })
            (read_entry (take n into.new)))
            (λ _. ReadFailed (record { bytes = Some self.old.trace; io_errors = self.old.io_errors }) (record { bytes = Some self.new.trace; io_errors = self.new.io_errors })) }

        // Exactly which calls fail, what is given, and what does not change.
        ensures number { self.new.calls ≡ counted self.old.calls }
        ensures listed { IsErr result ↔ (Contains self.old.failing self.new.calls ⊎ (self.old.capacity ≤ length self.old.trace + next_read_len self.old)) }
        ensures all { IfOk result (λ n. n ≡ next_read_len self.old) }
        ensures gives { IfOk result (λ n. (take n into.new ≡ take n self.old.left) × (self.new.left ≡ drop n self.old.left)) }
        ensures next { IfOk result (λ n. self.new.lengths ≡ drop 1 self.old.lengths) }
        ensures stays { (self.new.failing ≡ self.old.failing) × (self.new.capacity ≡ self.old.capacity) }
        ensures read_failed { OnErr result (self.new ≡ record self.old { calls = self.new.calls; io_errors = self.new.io_errors }) }
    {
        self.calls = self.calls.saturating_add(1);
        let calls = self.calls;
        let count = self.next_read_len();
        let room = self.capacity - self.trace.len();
        if self.failing.contains(&calls) || room <= count {
            self.io_errors = self.io_errors.saturating_add(1);
            return Err(Failed);
        }
        into[..count].copy_from_slice(&self.input[self.at..self.at + count]);
        self.at += count;
        if self.next < self.lengths.len() {
            self.next += 1;
        }
        self.trace.push(MARK).unwrap();
        extend(&mut self.trace, &into[..count], GIVEN);
        Ok(count)
    }
}
