//! Reports: records of texts in columns, which are cut into pages.
#![tactic(auto)]

pub mod column;
mod drawing;
mod filling;
mod laws;
mod measuring;
pub mod pages;
pub mod piece;
mod plain;
pub mod records;
pub mod report;
pub mod report_error;
mod shown;
mod starts;

pub use column::Column;
pub use laws::page_laws;
pub use pages::Pages;
pub use piece::Piece;
pub use records::Record;
pub use report::Report;
pub use report_error::ReportError;
