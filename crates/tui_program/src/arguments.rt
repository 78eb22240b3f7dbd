//! The arguments of a run.

ghost use Rattle.std.specs.Prelude.{◌≡◌, ◌↔◌, ◌<◌, IsTrue, [], ◌∷◌, drop, take};
ghost use Rattle.std.specs.Vec.Iter.{into_iter_items};
ghost use Rattle.tui_program.specs.Arguments.{AreTexts, StartWith};
ghost use Rattle.tui_program.specs.Input.{AreGiven};

use crate::stop::{Outcome, Stop};
use arrayvec::ArrayVec;
use std::alloc::Global;
use std::env::Args;
use std::io;
use std::io::ErrorKind;

/// One argument more than any command has.
const FIRST_ARGUMENTS: usize = 4;

/// Returns the first arguments after the program's name, at most one more than any command has. They decide which
/// command all arguments name, if any. Does not allocate.
pub fn first_arguments(alloc: Global, all: Args) -> ArrayVec<String, 4, Global>
    ensures { result.items ≡ take 4 (drop 1 (into_iter_items all)) }
{
    let mut rest = all;
    drop(rest.next());
    let mut arguments = ArrayVec::new_in(alloc);
    for place in 0..FIRST_ARGUMENTS {
        match rest.next() {
            Some(word) => arguments.push(word),
            None => break,
        }
    }
    arguments
}

/// Returns the first arguments of those that the system gives. Fails with `Usage` if the system rejects one, and with
/// `NoMemory` if it has no memory for them. Does not allocate.
pub fn given_arguments<R>(
    alloc: Global,
    args: io::Result<Args>,
) -> Outcome<ArrayVec<String, 4, Global>, R>
    ensures { AreGiven args result }
{
    match args {
        Ok(all) => Ok(first_arguments(alloc, all)),
        Err(error) if error.kind() == ErrorKind::OutOfMemory => Err(Stop::NoMemory),
        Err(_) => Err(Stop::Usage),
    }
}

/// Returns whether there are no arguments.
pub fn are_empty(arguments: &[String]) -> bool
    ensures { IsTrue result ↔ AreTexts [] arguments.now }
{
    arguments.is_empty()
}

/// Returns whether this is the only argument.
pub fn is_single_argument(arguments: &[String], word: &str) -> bool
    ensures { IsTrue result ↔ AreTexts (word.now ∷ []) arguments.now }
{
    start_with(arguments, 1, word)
}

/// Returns whether there are `count` arguments and `word` is the first of them.
pub fn start_with(arguments: &[String], count: usize, word: &str) -> bool
    requires { 0 < count }
    ensures { IsTrue result ↔ StartWith word.now count arguments.now }
{
    arguments.len() == count && arguments[0].as_str() == word
}
