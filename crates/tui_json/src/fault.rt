//! Why a value is not of its kind.

ghost use Rattle.std.specs.Prelude.{◌≡◌, IfOk, option_map};
ghost use Rattle.tui_json.specs.Faults.{fault_data, inside, missing, step_data, wanted_data, whole};
ghost use Rattle.serde_json.specs.View.{view};

use crate::wanted::Wanted;
use serde_json::Value;
use std::alloc::Global;
use tui_cells::Mem;

/// A step into a value.
#[derive(Clone, Copy, Debug, PartialEq, Eq)]
pub enum Step<'v> {
    /// To the member of this name.
    Key(&'v str),
    /// To the value of this index, from 0.
    Index(usize),
}

/// A value that is not of its kind, or that is missing.
#[derive(Drop)]
pub struct Fault<'v> {
    /// The steps to its place, the last one first.
    pub steps: Vec<Step<'v>>,
    /// What is wanted there.
    pub wanted: Wanted<'v>,
    /// What is there, if anything is.
    pub found: Option<&'v Value>,
}

impl<'v> Fault<'v> {
    /// Returns the fault of a value that is not what is wanted. Does not allocate.
    pub fn whole(alloc: Global, wanted: Wanted<'v>, value: &'v Value) -> Fault<'v>
        ensures { fault_data result ≡ whole (wanted_data wanted.entry) (view value.now) }
    {
        Fault {
            steps: Vec::new(alloc),
            wanted,
            found: Some(value),
        }
    }

    /// Returns the fault of a value that is not there. Does not allocate.
    pub fn missing(alloc: Global, wanted: Wanted<'v>) -> Fault<'v>
        ensures { fault_data result ≡ missing (wanted_data wanted.entry) }
    {
        Fault {
            steps: Vec::new(alloc),
            wanted,
            found: None,
        }
    }
}

/// Returns the fault as one of a value that has the faulty one a step inside.
pub fn inside<'v>(found: Option<Fault<'v>>, step: Step<'v>) -> Mem<Option<Fault<'v>>>
    ensures { IfOk result (λ outer. option_map fault_data outer ≡ inside (step_data step.entry) (option_map fault_data found.entry)) }
{
    match found {
        Some(fault) => {
            let mut fault = fault;
            fault.steps.push(step)?;
            Ok(Some(fault))
        }
        None => Ok(None),
    }
}
