//! Dates with a style each.

ghost use Rattle.std.specs.Prelude.{◌≡◌, [], IfOk, None, OnErr, OnOk, true};
ghost use Rattle.tui_calendar.specs.CalendarEventStore.{HasAdded, HasOne, dated_styles, event_style, kept_style, with_date};
ghost use Rattle.tui_calendar.specs.Month.{DateData, date_data};

use crate::date_styler::DateStyler;
use jiff::civil::Date;
use std::alloc::Global;
use std::collections::BTreeMap;
use tui_cells::{Mem, Style};

/// Dates with a style each, in the order of the dates.
#[derive(Debug, PartialEq, Eq)]
pub struct CalendarEventStore {
    styles: BTreeMap<Date, Style>,
}

// Written by hand, so that dependent crates need no proofs about dropping the fields.
impl Drop for CalendarEventStore {
    fn drop(self) {
        let CalendarEventStore { styles } = self;
    }
}

impl CalendarEventStore {
    /// Returns a store without dates.
    pub fn new(alloc: Global) -> CalendarEventStore
        ensures none { (d : DateData) → kept_style result d ≡ None }
        ensures dates { dated_styles result ≡ [] }
    {
        CalendarEventStore {
            styles: BTreeMap::new(alloc),
        }
    }

    /// Gives a date a style and replaces the style that it had. On `NoMemory` the store is unchanged.
    pub fn add(&mut self, date: Date, style: Style) -> Mem<()>
        ensures ok { OnOk result (HasAdded self.old self.new date style) }
        ensures dates { OnOk result (dated_styles self.new ≡ with_date (dated_styles self.old) (date_data date) style) }
        ensures err { OnErr result (self.new.styles.entries ≡ self.old.styles.entries) }
    {
        self.styles.insert(date, style)?;
        Ok(())
    }

    /// Returns a store with one date. Fails with `NoMemory` if the date can't be stored.
    pub fn on(alloc: Global, date: Date, style: Style) -> Mem<CalendarEventStore>
        ensures { IfOk result (λ store. HasOne store date style) }
    {
        let mut store = CalendarEventStore::new(alloc);
        store.add(date, style)?;
        Ok(store)
    }

    /// Returns an equal copy. Fails with `NoMemory` if the dates can't be allocated.
    pub fn clone(&self) -> Mem<CalendarEventStore>
        ensures is { IfOk result (λ store. store.styles.entries ≡ self.now.styles.entries) }
        ensures equal { IfOk result (λ store. ⟦<CalendarEventStore as PartialEq>⟧.eq store self.now ≡ true) }
    {
        Ok(CalendarEventStore {
            styles: copied(&self.styles)?,
        })
    }
}

fn copied(styles: &BTreeMap<Date, Style>) -> Mem<BTreeMap<Date, Style>>
    ensures { IfOk result (λ copy. copy.entries ≡ styles.now.entries) }
{
    Ok(styles.clone()?)
}

impl DateStyler for CalendarEventStore {
    ghost date_style = { event_style };

    /// Returns the style that is stored for the date, or the empty style.
    fn get_style(&self, date: Date) -> Style {
        match self.styles.get(&date) {
            Some(style) => *style,
            None => Style::new(),
        }
    }
}

impl DateStyler for &CalendarEventStore {
    ghost date_style = { λ store. event_style store.now };

    /// Returns the style that the store gives.
    fn get_style(&self, date: Date) -> Style {
        (*self).get_style(date)
    }
}
