//! The runtime of a process.

use std::alloc::AllocGlobal;
use std::env::Env;
use std::fs::Files;
use std::io::{Eprint, Input, Print};

/// What the handle of `main` has.
pub trait Host: Env + AllocGlobal + Files + Input + Print + Eprint {}

impl<R: Env + AllocGlobal + Files + Input + Print + Eprint> Host for R {}
