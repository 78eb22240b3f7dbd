//! The kinds of value that the schema names. Each is read from JSON in one way.

mod area;
mod bars;
mod block;
mod borders;
mod color;
mod date;
mod event;
mod four;
mod fraction;
mod line;
mod list_item;
pub(crate) mod member;
mod modifier;
mod named;
mod padding;
mod shadow;
mod span;
mod style;
mod symbol;
mod table;
mod table_width;
mod text;
mod title;
mod wrap;

pub(crate) use event::StyledDate;
pub(crate) use fraction::Share;
pub(crate) use symbol::Symbol;
pub(crate) use table_width::TableWidth;
