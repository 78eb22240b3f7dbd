//! What an event asks a browser to do.

ghost use Rattle.std.specs.Prelude.{◌≡◌};
ghost use Rattle.tui_files_lib.specs.BrowserAction.{browsed, entered, flow_after, flow_if_ignored, letter, moving, typing};

use crate::folders::EntryKind;
use tui_app::Flow;
use tui_keys::Event;

/// Where a key moves the selection.
#[derive(Clone, Copy, Debug, PartialEq, Eq)]
pub(crate) enum ListMotion {
    Down,
    Up,
    PageDown,
    PageUp,
    First,
    Last,
}

/// What an event asks for that the filter does not use.
#[derive(Clone, Copy, Debug, PartialEq, Eq)]
pub(crate) enum BrowserAction {
    Nothing,
    /// Ends the session.
    Quit,
    /// Chooses the selected file, which ends the session too.
    Choose,
    /// Goes into the selected folder.
    GoIn,
    /// Goes out of the folder.
    GoOut,
    /// Shows the hidden names, or hides them again.
    ToggleHidden,
    /// Starts typing the filter.
    BeginFilter,
    /// Stops typing the filter, and keeps it.
    KeepFilter,
    /// Stops typing the filter, and clears it.
    DropFilter,
    Move(ListMotion),
}

/// Returns how the session goes on after an event that doesn't concern the browser: Ctrl-L, which sends the whole
/// screen again, and a tick. Returns None for any other event.
pub(crate) fn flow_if_ignored(event: Event) -> Option<Flow>
    ensures { result ≡ flow_if_ignored event }
{
    match event {
        Event::Ctrl('l') => Some(Flow::Redraw),
        Event::Tick => Some(Flow::Go),
        _ => None,
    }
}

/// Returns how the session goes on after an action.
pub(crate) fn flow_after(action: BrowserAction) -> Flow
    ensures { result ≡ flow_after action }
{
    match action {
        BrowserAction::Quit | BrowserAction::Choose => Flow::Quit,
        _ => Flow::Go,
    }
}

/// Returns what an event asks for while the list is browsed, given what the selected name leads to.
pub(crate) fn browsed(selected: Option<EntryKind>, event: Event) -> BrowserAction
    ensures { result ≡ browsed selected event }
{
    match event {
        Event::Char(character) => letter(character),
        Event::Enter => entered(selected),
        Event::Left | Event::Backspace => BrowserAction::GoOut,
        Event::Esc => BrowserAction::DropFilter,
        _ => moving(event),
    }
}

fn letter(character: char) -> BrowserAction
    ensures { result ≡ letter character }
{
    match character {
        'q' => BrowserAction::Quit,
        '.' => BrowserAction::ToggleHidden,
        '/' => BrowserAction::BeginFilter,
        'j' => BrowserAction::Move(ListMotion::Down),
        'k' => BrowserAction::Move(ListMotion::Up),
        _ => BrowserAction::Nothing,
    }
}

fn entered(selected: Option<EntryKind>) -> BrowserAction
    ensures { result ≡ entered selected }
{
    match selected {
        Some(EntryKind::File) => BrowserAction::Choose,
        Some(EntryKind::Folder) => BrowserAction::GoIn,
        None => BrowserAction::Nothing,
    }
}

/// Returns what an event asks for that the filter doesn't use while it is typed.
pub(crate) fn typing(event: Event) -> BrowserAction
    ensures { result ≡ typing event }
{
    match event {
        Event::Enter => BrowserAction::KeepFilter,
        Event::Esc => BrowserAction::DropFilter,
        _ => moving(event),
    }
}

fn moving(event: Event) -> BrowserAction
    ensures { result ≡ moving event }
{
    match event {
        Event::Down => BrowserAction::Move(ListMotion::Down),
        Event::Up => BrowserAction::Move(ListMotion::Up),
        Event::PageDown => BrowserAction::Move(ListMotion::PageDown),
        Event::PageUp => BrowserAction::Move(ListMotion::PageUp),
        Event::Home => BrowserAction::Move(ListMotion::First),
        Event::End => BrowserAction::Move(ListMotion::Last),
        _ => BrowserAction::Nothing,
    }
}
