//! An app that moves a letter.

use std::alloc::Global;
use tui_app::{App, Flow};
use tui_cells::{Buffer, Mem, NoMemory, Position};
use tui_keys::Event;

/// Draws a letter in a column of the first row, and shows the cursor there.
#[derive(Drop)]
pub(crate) struct Dot {
    pub(crate) column: u16,
}

impl App for Dot {
    ghost behaviour = { record { steps = λ old event new flow. Unit {0}; draws = λ old screen place new. Unit {0} } };

    /// Right moves the letter, l sends the whole screen again, m runs out of memory, and q quits.
    fn step(&mut self, alloc: Global, event: Event) -> Mem<Flow> {
        match event {
            Event::Right => {
                self.column = self.column.saturating_add(1);
                Ok(Flow::Go)
            }
            Event::Char('l') => Ok(Flow::Redraw),
            Event::Char('m') => Err(NoMemory),
            Event::Char('q') => Ok(Flow::Quit),
            _ => Ok(Flow::Go),
        }
    }

    fn draw(&mut self, alloc: Global, buf: &mut Buffer) -> Mem<Option<Position>> {
        let place = Position {
            x: self.column,
            y: 0,
        };
        buf.set_symbol(place, "x")?;
        Ok(Some(place))
    }
}
