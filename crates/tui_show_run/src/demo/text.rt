//! The words.

ghost use Rattle.std.specs.Prelude.{◌≡◌, ◌≤◌, [], ◌∷◌, ◌++◌, IfOk, OnOk, string_bytes};
ghost use Rattle.std.specs.List.{repeat};
ghost use Rattle.tui_show_run.specs.Demo.Text.{demo_text, gap, letter, times};

use crate::demo::letters::letter_text;
use std::alloc::Global;
use tui_cells::Mem;

/// Returns the words 0 to n - 1, with a space between each two. Word i is its letter, 1 + (7 i + n) mod 9 times.
/// Allocates once, since any nine consecutive words have 45 letters in all. Fails with `NoMemory` if the text can't be
/// allocated.
pub fn demo_text(alloc: Global, n: u32) -> Mem<String>
    requires { n ≤ 100000 }
    ensures { IfOk result (λ text. string_bytes text ≡ demo_text n) }
{
    let mut text = String::with_capacity(alloc, 6 * n as usize + 6)?;
    'words: for i in 0..n {
        push_gap(&mut text, i)?;
        push_times(&mut text, letter_text(i), times(n, i))?;
    }
    Ok(text)
}

/// Returns the number of letters of a word.
fn times(n: u32, i: u32) -> u32
    requires n { n ≤ 100000 }
    requires i { i ≤ 100000 }
    ensures { result ≡ times n i }
{
    1 + (7 * i + n) % 9
}

/// Adds what separates a word from the one before it.
fn push_gap(text: &mut String, i: u32) -> Mem<()>
    ensures { OnOk result (string_bytes text.new ≡ string_bytes text.old ++ gap i) }
{
    if i != 0 {
        text.push(' ')?;
    }
    Ok(())
}

/// Adds a letter, `count` times.
fn push_times(text: &mut String, letter: &str, count: u32) -> Mem<()>
    ensures { OnOk result (string_bytes text.new ≡ string_bytes text.old ++ repeat count letter.now) }
{
    'times: for i in 0..count {
        text.push_str(letter)?;
    }
    Ok(())
}
