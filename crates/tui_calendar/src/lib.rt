//! The calendar of a month, and the styles of its dates.
#![tactic(auto)]

pub mod calendar_event_store;
pub mod date_styler;
pub mod laws;
mod month;
pub mod monthly;

pub use calendar_event_store::CalendarEventStore;
pub use date_styler::DateStyler;
pub use laws::month_laws;
pub use monthly::Monthly;
