//! Systems in memory.

ghost use Rattle.std.specs.Option.{option_map};
ghost use Rattle.std.specs.Prelude.{◌≡◌, [], ◌∷◌, ◌++◌, IfOk, OnErr, OnOk, false};
ghost use Rattle.tui_system.specs.MemSystem.{first_file, given_by, input_observed, opened_file, text_of};

use crate::mem_input::MemInput;
use crate::system::System;
use std::alloc::Global;
use std::env::Args;
use std::io;
use std::marker::Model;
use tui_cells::Mem;
use tui_io::MemSource;

/// A variable of the environment.
#[derive(Drop)]
struct MemVariable {
    name: String,
    text: String,
}

impl Model for MemVariable {
    ghost use Rattle.std.specs.Prelude.{string_bytes};
    ghost use Rattle.tui_system.specs.MemSystem.{VariableData};

    ghost Value = { VariableData };

    ghost view = { λ v. record { name = string_bytes v.name; text = string_bytes v.text } };
}

/// A file, with the numbers of the reads that fail, from 1.
#[derive(Drop)]
struct MemFile {
    name: String,
    bytes: Vec<u8>,
    failing: Vec<u64>,
}

impl Model for MemFile {
    ghost use Rattle.std.specs.Prelude.{string_bytes};
    ghost use Rattle.tui_system.specs.MemSystem.{FileData};

    ghost Value = { FileData };

    ghost view = { λ f. record { name = string_bytes f.name; bytes = f.bytes.items; failing = f.failing.items } };
}

/// A system in memory, for tests: it gives the arguments, variables and files that were added to it, and nothing else.
/// `NoMemory` of a call that adds something changes nothing.
#[derive(Drop)]
pub struct MemSystem {
    alloc: Global,
    arguments: Vec<String>,
    variables: Vec<MemVariable>,
    files: Vec<MemFile>,
    is_output_piped: bool,
}

impl Model for MemSystem {
    ghost use Rattle.std.specs.Prelude.{map, string_bytes};
    ghost use Rattle.tui_system.specs.MemSystem.{SystemState};

    ghost Value = { SystemState };

    ghost view = { λ s. record {
      arguments = map string_bytes s.arguments.items;
      variables = s.variables.items;
      files = s.files.items;
      is_output_piped = s.is_output_piped;
    } };
}

impl MemSystem {
    /// Returns a system without arguments, variables and files, whose standard output is its terminal.
    pub fn new(alloc: Global) -> MemSystem
        ensures { result ≡ record { arguments = []; variables = []; files = []; is_output_piped = false } }
    {
        MemSystem {
            alloc,
            arguments: Vec::new(alloc),
            variables: Vec::new(alloc),
            files: Vec::new(alloc),
            is_output_piped: false,
        }
    }

    /// Adds an argument after the others. The first one is the program's name.
    pub fn add_argument(&mut self, argument: &str) -> Mem<()>
        ensures ok { OnOk result (self.new ≡ record self.old { arguments = self.old.arguments ++ argument.now ∷ [] }) }
        ensures err { OnErr result (self.new ≡ self.old) }
    {
        self.arguments
            .push(String::from_str(self.alloc, argument)?)?;
        Ok(())
    }

    /// Adds a variable after the others. The first one of a name counts.
    pub fn add_variable(&mut self, name: &str, text: &str) -> Mem<()>
        ensures ok { OnOk result (self.new ≡ record self.old {
          variables = self.old.variables ++ record { name = name.now; text = text.now } ∷ [];
        }) }
        ensures err { OnErr result (self.new ≡ self.old) }
    {
        self.variables.push(MemVariable {
            name: String::from_str(self.alloc, name)?,
            text: String::from_str(self.alloc, text)?,
        })?;
        Ok(())
    }

    /// Adds a file after the others, of which the reads fail whose numbers are listed in `failing`; the first read has
    /// number 1. The first file of a name counts; the one named `-` is standard input.
    pub fn add_file(&mut self, name: &str, bytes: Vec<u8>, failing: Vec<u64>) -> Mem<()>
        ensures ok { OnOk result (self.new ≡ record self.old {
          files = self.old.files ++ record { name = name.now; bytes = bytes.items; failing = failing.items } ∷ [];
        }) }
        ensures err { OnErr result (self.new ≡ self.old) }
    {
        self.files.push(MemFile {
            name: String::from_str(self.alloc, name)?,
            bytes,
            failing,
        })?;
        Ok(())
    }

    /// Sets whether standard output is the user's and no terminal.
    pub fn set_output_piped(&mut self, is_output_piped: bool)
        ensures { self.new ≡ record self.old { is_output_piped = is_output_piped } }
    {
        self.is_output_piped = is_output_piped;
    }
}

impl System for MemSystem {
    ghost use Rattle.tui_system.specs.MemSystem.{given_by};

    type Input = MemInput;

    ghost gives = { given_by };

    fn alloc(&self) -> Global {
        self.alloc
    }

    fn arguments(&self) -> io::Result<Args> {
        let mut all = Vec::new(self.alloc);
        for argument in &self.arguments {
            all.push(String::from_str(self.alloc, argument.as_str())?)?;
        }
        Ok(all.into_iter())
    }

    fn variable(&self, name: &str) -> Mem<String> {
        Ok(String::from_str(self.alloc, text_of(&self.variables, name))?)
    }

    /// Opens the first file of this name. If there is none, every read fails.
    fn open(&self, name: &str) -> Mem<MemInput>
        ensures gives { IfOk result (λ file. (given_by self.now).opened name.now (input_observed file)) }
        ensures exactly { IfOk result (λ file. file ≡ opened_file self.now.files name.now) }
    {
        match file_of(&self.files, name) {
            Some(file) => Ok(MemInput::Found(MemSource::new(
                Vec::from_slice(self.alloc, &file.bytes)?,
                Vec::from_slice(self.alloc, &file.failing)?,
            ))),
            None => Ok(MemInput::Missing(0)),
        }
    }

    /// Does nothing.
    fn explain(&self, _name: &str, _text: &str) {}

    fn is_output_piped(&self) -> Mem<bool> {
        Ok(self.is_output_piped)
    }
}

/// Returns the text of the first variable of a name; empty if there is none.
fn text_of<'v>(variables: &'v [MemVariable], name: &str) -> &'v str
    ensures { result.now ≡ text_of variables.now name.now }
{
    for variable in variables {
        if variable.name.as_str() == name {
            return variable.text.as_str();
        }
    }
    ""
}

/// Returns the first file of a name.
fn file_of<'f>(files: &'f [MemFile], name: &str) -> Option<&'f MemFile>
    ensures { option_map (λ file. file.now) result ≡ first_file files.now name.now }
{
    for file in files {
        if file.name.as_str() == name {
            return Some(file);
        }
    }
    None
}
