//! How a text input handles events.

ghost use Rattle.std.specs.Prelude.{◌≡◌, false, IfOk, IsOk, OnErr, OnOk};
ghost use Rattle.tui_input.specs.Taking.{commanded, is_character, is_command, is_key, is_handled, keyed, pasted, pasted_char, after_event, with_pasting};

use crate::state::InputState;
use tui_cells::Mem;
use tui_keys::Event;

impl InputState {
    /// Handles an event, and returns whether the input used it. It uses:
    ///
    /// - a character, which it inserts as `insert` does;
    /// - Backspace, Delete, Left, Right, Home and End;
    /// - with Ctrl: a and e as Home and End, u and k to delete the text left and right of the cursor, w to delete a
    ///   word;
    /// - a paste: every event is used up to its end, each character is inserted, a newline as a space, and nothing is a
    ///   command.
    ///
    /// Any other event changes nothing. Only a character allocates. On `NoMemory` nothing has changed.
    pub fn take(&mut self, event: Event) -> Mem<bool>
        ensures ok { OnOk result (self.new ≡ after_event self.old event) }
        ensures used { IfOk result (λ used. used ≡ is_handled self.old event) }
        ensures allocation_free { is_character event ≡ false → IsOk result }
        ensures err { OnErr result (self.new ≡ self.old) }
    {
        if self.is_pasting() {
            self.handle_pasted(event)?;
            return Ok(true);
        }
        self.handle_key(event)
    }

    fn handle_pasted(&mut self, event: Event) -> Mem<()>
        ensures ok { OnOk result (self.new ≡ pasted self.old event) }
        ensures allocation_free { is_character event ≡ false → IsOk result }
        ensures err { OnErr result (self.new ≡ self.old) }
    {
        match event {
            Event::Char(c) => {
                self.insert(pasted_char(c))?;
                Ok(())
            }
            Event::PasteEnd => {
                self.set_pasting(false);
                Ok(())
            }
            _ => Ok(()),
        }
    }

    fn handle_key(&mut self, event: Event) -> Mem<bool>
        ensures ok { OnOk result (self.new ≡ keyed self.old event) }
        ensures used { IfOk result (λ used. used ≡ is_key event) }
        ensures allocation_free { is_character event ≡ false → IsOk result }
        ensures err { OnErr result (self.new ≡ self.old) }
    {
        match event {
            Event::Char(c) => {
                self.insert(c)?;
                return Ok(true);
            }
            Event::Backspace => self.backspace(),
            Event::Delete => self.delete(),
            Event::Left => self.left(),
            Event::Right => self.right(),
            Event::Home => self.home(),
            Event::End => self.end(),
            Event::Ctrl(c) => return Ok(self.apply_ctrl(c)),
            Event::PasteBegin => self.set_pasting(true),
            _ => return Ok(false),
        }
        Ok(true)
    }

    /// Runs the command of a letter with Ctrl, if it has one, and returns whether it has.
    fn apply_ctrl(&mut self, c: char) -> bool
        ensures does { self.new ≡ commanded self.old c }
        ensures is { result ≡ is_command c }
    {
        match c {
            'a' => self.home(),
            'e' => self.end(),
            'u' => self.delete_to_start(),
            'k' => self.delete_to_end(),
            'w' => self.delete_word(),
            _ => return false,
        }
        true
    }
}

fn pasted_char(c: char) -> char
    ensures { result ≡ pasted_char c }
{
    if c == '\n' { ' ' } else { c }
}
