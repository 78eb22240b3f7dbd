//! The programs.

use crate::members::member;
use anyhow::{Result, bail};
use serde_json::Value;

/// The program that a row runs.
#[derive(Clone, Copy)]
pub(crate) enum Program {
    /// `tui_show`.
    Show,
    /// `tui_pages`.
    Pages,
    /// `tui_pager`.
    Pager,
    /// `tui_panes`.
    Panes,
}

impl Program {
    /// The program of a row; `tui_show` if it names none.
    pub(crate) fn of(row: &Value) -> Result<Program> {
        let Some(name) = member(row, "program") else {
            return Ok(Program::Show);
        };
        match name.as_str() {
            Some("show") => Ok(Program::Show),
            Some("pages") => Ok(Program::Pages),
            Some("pager") => Ok(Program::Pager),
            Some("panes") => Ok(Program::Panes),
            _ => bail!("no such program"),
        }
    }
}
