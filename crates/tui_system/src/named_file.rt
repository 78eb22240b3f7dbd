//! Files that a program names when it says what is wrong with them.

use crate::system::System;
use tui_program::{Caller, Cleanup, Explainer};

/// A file of a system, by its name. What is wrong with it is said with the name.
#[derive(Drop)]
pub struct NamedFile<'f, S> {
    pub system: &'f S,
    pub name: &'f str,
}

impl<'f, S: System> Explainer for NamedFile<'f, S> {
    fn explain(&self, text: &str) {
        self.system.explain(self.name, text);
    }
}

/// The process ends with the run that reads the file, and says itself how it is used.
impl<'f, S: System> Caller for NamedFile<'f, S> {
    fn cleanup(&self) -> Cleanup {
        Cleanup::Left
    }
}
