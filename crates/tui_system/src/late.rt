//! Terminals and destinations that a run opens.

ghost use Rattle.std.specs.Prelude.{◌≡◌, ◌<◌, IfOk, IfSome, IsErr, IsNone, IsOk, IsSome, MatchResult, None, Option, length, take};
ghost use Rattle.std.specs.Io.{ReadsAtMost, WritesAtMost};
ghost use Rattle.std.specs.Io.KnownBytes.{WriteAppends};
ghost use Rattle.tui_app.specs.Trace.{ReadFailed, Traced, read_entry};
ghost use Rattle.tui_io.specs.Causes.{HasCause};
ghost use Rattle.tui_system.specs.Late.{IsOpenAt, errors_only, open_bytes};
ghost use Rattle.tui_system.specs.Opening.{Opens};
ghost use Rattle.tui_system.specs.Places.{PlaceData, place_data};

use crate::console::Console;
use crate::destination::Destination;
use crate::place::Place;
use tui_app::{READ_CAPACITY, Terminal};
use tui_cells::Mem;
use tui_io::{Failed, Sink};

/// What opens a terminal.
pub trait OpensTerminal {
    /// What is open then.
    type Terminal: Terminal + Drop;

    // Whether opening may give this; None if the terminal can't be opened.
    ghost opens: { Self → Option Self.Terminal → Type 0 };

    /// Opens the terminal; None if it can't be opened, and then a line on standard error says why.
    fn open(&self) -> Mem<Option<Self::Terminal>>
        ensures { IfOk result (opens self.now) };
}

/// What opens a place.
pub trait OpensPlace {
    /// What is open then.
    type Opened: Sink + Drop;

    // Whether opening this place may give this; None if it can't be opened.
    ghost opens: { Self → PlaceData → Option Self.Opened → Type 0 };

    /// Opens a place; None if it can't be opened, and then a line on standard error says why. Its content stays.
    fn open(&self, place: Place<'_>) -> Mem<Option<Self::Opened>>
        ensures { IfOk result (opens self.now (place_data place.entry)) };
}

/// A terminal or a destination that is opened by a run. Until then every write and every read fails. Counts the calls
/// that failed. Its bytes and its trace are not observable.
#[derive(Drop)]
pub struct Late<O, T> {
    opener: O,
    opened: Option<T>,
    io_errors: u64,
}

impl<O, T> Late<O, T> {
    /// Returns a terminal or a destination that is not open.
    pub fn new(opener: O) -> Late<O, T>
        ensures shut { IsNone result.opened }
        ensures opener { result.opener ≡ opener }
        ensures fresh { result.io_errors ≡ 0 }
    {
        Late {
            opener,
            opened: None,
            io_errors: 0,
        }
    }
}

impl<O: Drop, T: Drop> Late<O, T> {
    /// Closes what was open, and keeps open what was found. That nothing was found counts as a call that failed.
    fn hold(&mut self, found: Option<T>) -> Result<(), Failed>
        ensures held { self.new.opened ≡ found }
        ensures opener { self.new.opener ≡ self.old.opener }
        ensures cause { HasCause self.old.io_errors self.new.io_errors result }
        ensures some { IsOk result → IsSome found }
        ensures none { IsErr result → IsNone found }
    {
        self.opened = found;
        if self.opened.is_some() {
            Ok(())
        } else {
            self.io_errors = self.io_errors.saturating_add(1);
            Err(Failed)
        }
    }
}

impl<O: OpensTerminal<Terminal = T> + Drop, T: Terminal + Drop> Console for Late<O, T> {
    ghost use Rattle.tui_system.specs.Late.{IsOpenAt};

    ghost is_open = { λ late. IsOpenAt (O.opens late.opener) late.opened };

    /// Opens the terminal. What was open before is closed.
    fn open(&mut self) -> Mem<Result<(), Failed>>
        ensures opens { Opens (errors_only self.old.io_errors) (errors_only self.new.io_errors) (IsOpenAt (O.opens self.new.opener) self.new.opened) result }

        // What is open now is what the opener gave; nothing is if that was nothing.
        ensures gives { IfOk result (λ ready. O.opens self.old.opener self.new.opened) }
        ensures shut { IfOk result (λ ready. IsErr ready → IsNone self.new.opened) }
        ensures opener { self.new.opener ≡ self.old.opener }
    {
        let terminal = self.opener.open()?;
        Ok(self.hold(terminal))
    }
}

impl<O: OpensPlace<Opened = T> + Drop, T: Sink + Drop> Destination for Late<O, T> {
    ghost use Rattle.tui_system.specs.Late.{IsOpenAt};

    ghost is_open_at = { λ late place. IsOpenAt (O.opens late.opener place) late.opened };

    /// Opens the place. What was open before is closed.
    fn open(&mut self, place: Place<'_>) -> Mem<Result<(), Failed>>
        ensures opens { Opens (errors_only self.old.io_errors) (errors_only self.new.io_errors)
            (IsOpenAt (O.opens self.new.opener (place_data place.entry)) self.new.opened) result }

        // What is open now is what the opener gave; nothing is if that was nothing.
        ensures gives { IfOk result (λ ready. O.opens self.old.opener (place_data place.entry) self.new.opened) }
        ensures shut { IfOk result (λ ready. IsErr ready → IsNone self.new.opened) }
        ensures opener { self.new.opener ≡ self.old.opener }
    {
        let opened = self.opener.open(place)?;
        Ok(self.hold(opened))
    }
}

impl<O: Drop, T: Sink + Drop> Sink for Late<O, T> {
    ghost use Rattle.tui_system.specs.Late.{errors_only};

    ghost observed = { λ late. errors_only late.io_errors };

    /// Writes to what is open, and fails exactly if that does. Fails also if nothing is open.
    fn put(&mut self, bytes: &[u8]) -> Result<usize, Failed>
        ensures bound { WritesAtMost result bytes.now }
        ensures some { IfOk result (λ n. 0 < length bytes.now → 0 < n) }
        ensures bytes { WriteAppends None None result bytes.now }
        ensures cause { HasCause self.old.io_errors self.new.io_errors result }

        // What is open takes the bytes.
        ensures passes { WriteAppends (open_bytes T.observed self.old.opened) (open_bytes T.observed self.new.opened) result bytes.now }
        ensures shut { IsNone self.old.opened → IsErr result }
        ensures opener { self.new.opener ≡ self.old.opener }
    {
        let taken = match &mut self.opened {
            Some(opened) => opened.put(bytes),
            None => Err(Failed),
        };
        if taken.is_err() {
            self.io_errors = self.io_errors.saturating_add(1);
        }
        taken
    }
}

impl<O: Drop, T: Terminal + Drop> Terminal for Late<O, T> {
    /// Gives what the terminal gives that is open, and fails exactly if that does. Fails also if none is open.
    fn wait(&mut self, into: &mut [u8; READ_CAPACITY]) -> Result<usize, Failed>
        ensures bound { ReadsAtMost result into.new }
        ensures trace { MatchResult result
            (λ n. Traced (errors_only self.old.io_errors) (errors_only self.new.io_errors) (read_entry (take n into.new)))
            (λ _. ReadFailed (errors_only self.old.io_errors) (errors_only self.new.io_errors)) }

        // The terminal that is open gives the bytes.
        ensures passes { IfSome self.old.opened (λ old. IfSome self.new.opened (λ new. MatchResult result
            (λ n. Traced (T.observed old) (T.observed new) (read_entry (take n into.new)))
            (λ _. ReadFailed (T.observed old) (T.observed new)))) }
        ensures shut { IsNone self.old.opened → IsErr result }
        ensures opener { self.new.opener ≡ self.old.opener }
    {
        let given = match &mut self.opened {
            Some(terminal) => terminal.wait(into),
            None => Err(Failed),
        };
        if given.is_err() {
            self.io_errors = self.io_errors.saturating_add(1);
        }
        given
    }
}
