//! Indices below `count` that wrap around.

ghost use Rattle.std.specs.Prelude.{◌≡◌};
ghost use Rattle.tui_form_lib.specs.Value.{place_before, place_after};

/// Returns the next index; 0 after None and after the last.
pub(crate) fn place_after(count: usize, place: Option<usize>) -> usize
    ensures { result ≡ place_after count place }
{
    match place {
        Some(place) if place < count.saturating_sub(1) => place + 1,
        _ => 0,
    }
}

/// Returns the previous index; the last one before None, before 0, and before an index that is not below `count`.
pub(crate) fn place_before(count: usize, place: Option<usize>) -> usize
    ensures { result ≡ place_before count place }
{
    match place {
        Some(place) if 0 < place && place < count => place - 1,
        _ => count.saturating_sub(1),
    }
}
