//! The load of a machine.

use crate::numbers::hundredths;

/// How many tasks ran or waited to run on average over the last minute, five minutes and fifteen minutes, in
/// hundredths.
#[derive(Clone, Copy, Debug, PartialEq, Eq)]
pub struct Load {
    pub one: u64,
    pub five: u64,
    pub fifteen: u64,
}

impl Load {
    /// Parses `loadavg`. Returns None if it doesn't begin with three numbers with two digits after the point.
    pub fn parse(text: &str) -> Option<Load> {
        let mut words = text.split_ascii_whitespace();
        let one = hundredths(words.next()?)?;
        let five = hundredths(words.next()?)?;
        let fifteen = hundredths(words.next()?)?;
        Some(Load { one, five, fifteen })
    }
}
