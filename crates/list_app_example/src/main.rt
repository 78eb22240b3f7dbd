//! A list whose selection the arrow keys or j and k move; q quits.
#![tactic(auto)]

ghost use Rattle.std.specs.Prelude.{◌≡◌, ◌↔◌, ⊤};
ghost use Rattle.tui_app.specs.declared.app.Flow.TheVariants.{Quit};
ghost use Rattle.tui_keys.specs.declared.event.Event.TheVariants.{Char};

use std::alloc::Global;
use std::io;
use std::process::ExitCode;
use tui::app::{App, AppEnd, Flow, IoTerminal, run};
use tui::buffer::{Buffer, Mem};
use tui::layout::{Position, Size};
use tui::terminal::{Depth, Event, KnownWidths, Output, StdSink, StdSource};
use tui::text::{Line, Text};
use tui::widgets::{List, ListItem, ListState, StatefulWidget};

const NAMES: [&str; 6] = ["apples", "bread", "cheese", "dates", "eggs", "figs"];

#[derive(Drop)]
struct Shopping {
    state: ListState,
}

impl App for Shopping {
    // What is proved of it: q quits (113 is its code), and nothing else does.
    ghost behaviour = { record {
      steps = λ old event new flow. (flow ≡ Quit) ↔ (event ≡ Char 113);
      draws = λ old screen place new. ⊤;
    } };

    fn step(&mut self, _alloc: Global, event: Event) -> Mem<Flow> {
        match event {
            Event::Char('q') => return Ok(Flow::Quit),
            Event::Ctrl('l') => return Ok(Flow::Redraw),
            Event::Down | Event::Char('j') => self.state.select_next(),
            Event::Up | Event::Char('k') => self.state.select_previous(),
            _ => {}
        }
        Ok(Flow::Go)
    }

    fn draw(&mut self, alloc: Global, buf: &mut Buffer) -> Mem<Option<Position>> {
        let mut items = Vec::new(alloc);
        for name in NAMES.iter() {
            items.push(ListItem::new(Text::raw(alloc, name)?))?;
        }
        let list = List::new(alloc, items)?.highlight_symbol(Line::raw(alloc, "> ")?);
        StatefulWidget::render(&list, alloc, buf.area(), buf, &mut self.state)?;
        Ok(None)
    }
}

fn main(rt: HostRuntime) -> ExitCode {
    let mut terminal = IoTerminal::new(StdSource::new(rt.reader()), StdSink::new(io::writer(&rt)));
    let output = Output {
        depth: Depth::Palette,
        widths: KnownWidths::Common,
        synchronized: true,
    };
    let mut app = Shopping {
        state: ListState::default().with_selected(Some(0)),
    };
    let size = Size {
        width: 20,
        height: 4,
    };
    match run(rt.alloc(), &mut app, output, size, &mut terminal) {
        AppEnd::Quit | AppEnd::Ended => ExitCode::SUCCESS,
        _ => ExitCode::FAILURE,
    }
}
