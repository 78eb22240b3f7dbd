//! What an event asks a pager to do.

ghost use Rattle.std.specs.Prelude.{◌≡◌};
ghost use Rattle.tui_browse_lib.specs.PagerAction.{action, ctrl_action, letter};

use tui_keys::Event;
use tui_pager_lib::Key;

/// What an event asks a pager to do.
#[derive(Clone, Copy, Debug, PartialEq, Eq)]
pub enum PagerAction {
    Nothing,
    Quit,
    /// Sends the whole screen again.
    Redraw,
    /// Presses a key of the pager once.
    Press(Key),
    /// Presses a key of the pager once for each row of the body.
    PressPerRow(Key),
    /// The screen has a new size: columns and rows.
    Size(u16, u16),
}

/// Returns what an event asks for. Up, Down, Page Up, Page Down, Home and End move through the entries. Backspace
/// scrolls the body up by as many lines as it has rows.
pub(crate) fn action_for(event: Event) -> PagerAction
    ensures { result ≡ action event }
{
    match event {
        Event::Char(character) => letter(character),
        Event::Ctrl(character) => ctrl_action(character),
        Event::Up => PagerAction::Press(Key::Up),
        Event::Down => PagerAction::Press(Key::Down),
        Event::PageUp => PagerAction::Press(Key::PageUp),
        Event::PageDown => PagerAction::Press(Key::PageDown),
        Event::Home => PagerAction::Press(Key::First),
        Event::End => PagerAction::Press(Key::Last),
        Event::Backspace => PagerAction::PressPerRow(Key::LineUp),
        Event::Resize(width, height) => PagerAction::Size(width, height),
        _ => PagerAction::Nothing,
    }
}

/// `j` and `k` move through the entries. `J` and `K` scroll the body by a line, and the space bar scrolls it down by as
/// many lines as it has rows. `q` quits.
fn letter(character: char) -> PagerAction
    ensures { result ≡ letter character }
{
    match character {
        'q' => PagerAction::Quit,
        'j' => PagerAction::Press(Key::Down),
        'k' => PagerAction::Press(Key::Up),
        'J' => PagerAction::Press(Key::LineDown),
        'K' => PagerAction::Press(Key::LineUp),
        ' ' => PagerAction::PressPerRow(Key::LineDown),
        _ => PagerAction::Nothing,
    }
}

/// Ctrl-L sends the whole screen again.
fn ctrl_action(character: char) -> PagerAction
    ensures { result ≡ ctrl_action character }
{
    match character {
        'l' => PagerAction::Redraw,
        _ => PagerAction::Nothing,
    }
}
