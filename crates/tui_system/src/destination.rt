//! Destinations of what a program gives, such as the answers of a form.

ghost use Rattle.std.specs.Prelude.{IsOk, IsOkAnd, Some, ◌≡◌};
ghost use Rattle.tui_system.specs.Opening.{Opens};
ghost use Rattle.tui_system.specs.Places.{PlaceData, place_data};

use crate::place::Place;
use tui_cells::Mem;
use tui_io::{Failed, MemSink, Sink};

/// A destination of what a program gives at its end. It is opened before the terminal is entered, so that nobody fills
/// in a form, for instance, whose answers can't be written.
pub trait Destination: Sink {
    // Whether it is open, and at this place.
    ghost is_open_at: { Self → PlaceData → Type 0 };

    /// Opens the destination. Returns `Failed` if it can't be opened, which counts as a write that failed. Its content
    /// stays; that of a file is removed when the first bytes are written.
    fn open(&mut self, place: Place<'_>) -> Mem<Result<(), Failed>>
        ensures opens { Opens (Self.observed self.old) (Self.observed self.new) (is_open_at self.new (place_data place.entry)) result };
}

/// A sink in memory takes what is meant for any place.
impl Destination for MemSink {
    ghost use Rattle.std.specs.Prelude.{⊤};

    ghost is_open_at = { λ _ _. ⊤ };

    /// Always succeeds, and does not allocate.
    fn open(&mut self, _place: Place<'_>) -> Mem<Result<(), Failed>>
        ensures ready { IsOkAnd result IsOk }
        ensures same { self.new ≡ self.old }
    {
        // The memory is reserved.
        Ok(Ok(()))
    }
}
