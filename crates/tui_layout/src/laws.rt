//! Laws of all windows.

ghost use Rattle.tui_layout.specs.Laws.{SelectedIsShown, WindowIsUnique, WindowIsStable};

/// For all heights and numbers there is exactly one window. A selected item that fits is shown, and all items in the
/// window fit. Asking again with the window's first item and the selection that it leaves gives the same window.
pub fn window_laws()
    ensures one { WindowIsUnique }
    ensures selected { SelectedIsShown }
    ensures again { WindowIsStable }
{}
