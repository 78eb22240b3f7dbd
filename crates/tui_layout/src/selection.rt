//! Moving a selection. Indices count from 0.

ghost use Rattle.std.specs.Prelude.{◌≡◌};
ghost use Rattle.tui_layout.specs.Selection.{back_by, forward_by, next_of, previous_of};

/// Returns the next index, or the first one if nothing is selected. The greatest index has no next one and stays.
pub fn next_of(selected: Option<usize>) -> usize
    ensures { result ≡ next_of selected }
{
    match selected {
        None => 0,
        Some(place) => place.saturating_add(1),
    }
}

/// Returns the previous index, or the greatest one if nothing is selected. The first index stays.
pub fn previous_of(selected: Option<usize>) -> usize
    ensures { result ≡ previous_of selected }
{
    match selected {
        None => usize::MAX,
        Some(place) => place.saturating_sub(1),
    }
}

/// Returns the index `amount` further on, counted from the first if nothing is selected. Stops at the greatest index.
pub fn forward_by(selected: Option<usize>, amount: u16) -> usize
    ensures { result ≡ forward_by selected amount }
{
    selected.unwrap_or(0).saturating_add(usize::from(amount))
}

/// Returns the index `amount` back, counted from the first if nothing is selected. Stops at the first index.
pub fn back_by(selected: Option<usize>, amount: u16) -> usize
    ensures { result ≡ back_by selected amount }
{
    selected.unwrap_or(0).saturating_sub(usize::from(amount))
}
