//! The app.

ghost use Rattle.std.specs.Prelude.{◌≡◌, IfOk, false};

use crate::drawing::{draw_headline, draw_meters, rows_of};
use crate::history::History;
use crate::machine::Machine;
use crate::reading::MachineReading;
use crate::table::draw_processes;
use crate::trends::{Trends, draw_trends};
use std::alloc::Global;
use std::mem;
use tui_app::{App, Flow};
use tui_cells::{Buffer, Mem, Position};
use tui_keys::Event;
use tui_layout::{Constraint, Flex, split};

/// The heights of the headline, the gauges, the sparklines and the processes. On a screen with fewer rows the first of
/// these are shown.
const ROWS: [Constraint; 4] = [
    Constraint::Length(1),
    Constraint::Length(3),
    Constraint::Length(4),
    Constraint::Fill(1),
];

/// A dashboard of a machine, which it reads at each tick.
#[derive(Drop)]
pub struct Watch<M> {
    machine: M,
    paused: bool,
    reading: MachineReading,
    trends: Trends,
}

impl<M: Machine + Drop> Watch<M> {
    /// Returns a dashboard of a machine, with a first reading. Fails with `NoMemory` if memory for that is missing.
    pub fn new(alloc: Global, machine: M) -> Mem<Watch<M>>
        ensures machine { IfOk result (λ watch. watch.machine ≡ machine) }
        ensures paused { IfOk result (λ watch. watch.paused ≡ false) }
    {
        let mut watch = Watch {
            machine,
            paused: false,
            reading: MachineReading::none(alloc),
            trends: Trends {
                load: History::new(),
                processors: History::new(),
                memory: History::new(),
            },
        };
        watch.refresh(alloc)?;
        Ok(watch)
    }

    // Reads the machine.
    fn refresh(&mut self, alloc: Global) -> Mem<()>
        ensures machine { self.new.machine ≡ self.old.machine }
        ensures paused { self.new.paused ≡ self.old.paused }
    {
        let reading = MachineReading::take(alloc, &self.machine, &mut self.reading)?;
        self.trends.push(&reading);
        drop(mem::replace(&mut self.reading, reading));
        Ok(())
    }
}

impl<M: Machine + Drop> App for Watch<M> {
    ghost use Rattle.tui_watch_lib.specs.Watching.{watching};

    ghost behaviour = { watching M };

    /// A tick reads the machine, `p` pauses and resumes that, Ctrl-L sends the whole screen again, and `q` quits.
    fn step(&mut self, alloc: Global, event: Event) -> Mem<Flow> {
        match event {
            Event::Char('q') => return Ok(Flow::Quit),
            Event::Ctrl('l') => return Ok(Flow::Redraw),
            Event::Char('p') => self.paused = !self.paused,
            Event::Tick if !self.paused => self.refresh(alloc)?,
            _ => {}
        }
        Ok(Flow::Go)
    }

    fn draw(&mut self, alloc: Global, buf: &mut Buffer) -> Mem<Option<Position>> {
        let area = buf.area();
        let parts = split(alloc, area.height, 0, &ROWS, Flex::Start)?;
        let headline = rows_of(area, parts.get(0));
        let meters = rows_of(area, parts.get(1));
        let trends = rows_of(area, parts.get(2));
        let processes = rows_of(area, parts.get(3));
        draw_headline(alloc, &self.reading, self.paused, headline, buf)?;
        draw_meters(alloc, &self.reading, meters, buf)?;
        draw_trends(alloc, &self.trends, trends, buf)?;
        draw_processes(alloc, &self.reading, processes, buf)?;
        Ok(None)
    }
}
