//! Widgets of a scene.

ghost use Rattle.std.specs.Prelude.{◌≡◌, IsOk, IsTrue, OnErr, OnOk};
ghost use Rattle.tui_cells.specs.Layers.{KeptOutside, Painted};
ghost use Rattle.tui_cells.specs.Rect.{intersection_of, is_empty};

use std::alloc::Global;
use tui_bars::{BarChart, Gauge, LineGauge, Sparkline};
use tui_calendar::{CalendarEventStore, Monthly};
use tui_cells::{Buffer, Mem, Rect, StatefulWidget, Widget};
use tui_frames::{Block, Clear, Fill};
use tui_lists::{List, ListState, Scrollbar, ScrollbarState, Tabs};
use tui_para::{Paragraph, RatatuiLogo};
use tui_table::{Table, TableState};

/// A widget of any kind, with its state if it has one.
pub enum Item<'a> {
    Clear(Clear),
    Fill(Fill<'a>),
    Block(Block<'a>),
    Paragraph(Paragraph<'a>),
    List(List<'a>, ListState),
    Table(Table<'a>, TableState),
    Tabs(Tabs<'a>),
    Scrollbar(Scrollbar<'a>, ScrollbarState),
    Gauge(Gauge<'a>),
    LineGauge(LineGauge<'a>),
    BarChart(BarChart<'a>),
    Sparkline(Sparkline<'a>),
    Monthly(Monthly<'a, CalendarEventStore>),
    Logo(RatatuiLogo),
}

// Written by hand, so that dependent crates need no proofs about dropping the fields.
impl<'a> Drop for Item<'a> {
    fn drop(self) {
        match self {
            Item::Clear(clear) => {}
            Item::Fill(fill) => {}
            Item::Block(block) => {}
            Item::Paragraph(paragraph) => {}
            Item::List(list, state) => {}
            Item::Table(table, state) => {}
            Item::Tabs(tabs) => {}
            Item::Scrollbar(scrollbar, state) => {}
            Item::Gauge(gauge) => {}
            Item::LineGauge(gauge) => {}
            Item::BarChart(chart) => {}
            Item::Sparkline(sparkline) => {}
            Item::Monthly(month) => {}
            Item::Logo(logo) => {}
        }
    }
}

impl<'a> Item<'a> {
    ghost use Rattle.tui_scene.specs.Item.{item_data, item_drawing, with_list_state, with_scrollbar_state, with_table_state};

    /// Draws the widget in its area and updates its state. On `NoMemory` the item is unchanged.
    pub(crate) fn render(&mut self, alloc: Global, area: Rect, buf: &mut Buffer) -> Mem<()>
        ensures ok { OnOk result (Painted ((item_drawing (item_data self.old)).layers (intersection_of area buf.old.area)) buf.old buf.new) }
        ensures state { OnOk result (item_data self.new ≡ (item_drawing (item_data self.old)).after (intersection_of area buf.old.area)) }
        ensures shows { OnOk result
            ((item_drawing (item_data self.old)).shows (item_data self.new) (intersection_of area buf.old.area) buf.old buf.new) }
        ensures err { OnErr result
            (KeptOutside ((item_drawing (item_data self.old)).footprint (intersection_of area buf.old.area)) buf.old buf.new) }
        ensures err_state { OnErr result (item_data self.new ≡ item_data self.old) }
        ensures empty { IsTrue (is_empty (intersection_of area buf.old.area)) → IsOk result }
        ensures allocation_free { (item_drawing (item_data self.old)).allocation_free → IsOk result }
    {
        match &*self {
            Item::Clear(clear) => clear.render(alloc, area, buf),
            Item::Fill(fill) => fill.render(alloc, area, buf),
            Item::Block(block) => block.render(alloc, area, buf),
            Item::Paragraph(paragraph) => paragraph.render(alloc, area, buf),
            Item::List(list, state) => {
                let mut after = *state;
                StatefulWidget::render(list, alloc, area, buf, &mut after)?;
                self.set_list_state(after);
                Ok(())
            }
            Item::Table(table, state) => {
                let mut after = *state;
                StatefulWidget::render(table, alloc, area, buf, &mut after)?;
                self.set_table_state(after);
                Ok(())
            }
            Item::Tabs(tabs) => tabs.render(alloc, area, buf),
            Item::Scrollbar(scrollbar, state) => {
                let mut after = *state;
                scrollbar.render(alloc, area, buf, &mut after)?;
                self.set_scrollbar_state(after);
                Ok(())
            }
            Item::Gauge(gauge) => gauge.render(alloc, area, buf),
            Item::LineGauge(gauge) => gauge.render(alloc, area, buf),
            Item::BarChart(chart) => chart.render(alloc, area, buf),
            Item::Sparkline(sparkline) => sparkline.render(alloc, area, buf),
            Item::Monthly(month) => month.render(alloc, area, buf),
            Item::Logo(logo) => logo.render(alloc, area, buf),
        }
    }

    /// Replaces the state of a list.
    fn set_list_state(&mut self, after: ListState)
        ensures { item_data self.new ≡ with_list_state after (item_data self.old) }
    {
        if let Item::List(_, state) = self {
            *state = after;
        }
    }

    /// Replaces the state of a table.
    fn set_table_state(&mut self, after: TableState)
        ensures { item_data self.new ≡ with_table_state after (item_data self.old) }
    {
        if let Item::Table(_, state) = self {
            *state = after;
        }
    }

    /// Replaces the state of a scrollbar.
    fn set_scrollbar_state(&mut self, after: ScrollbarState)
        ensures { item_data self.new ≡ with_scrollbar_state after (item_data self.old) }
    {
        if let Item::Scrollbar(_, state) = self {
            *state = after;
        }
    }
}
