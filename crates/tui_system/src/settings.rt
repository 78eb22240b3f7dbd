//! The terminal at the start of a session.

ghost use Rattle.std.specs.Prelude.{◌≡◌};
ghost use Rattle.tui_system.specs.Setting.{IsSide, output_of};

use tui_cells::Size;
use tui_program::Numerals;
use tui_terminal_model::{Depth, KnownWidths, Output};

/// How output is sent to the terminal, and its first size.
#[derive(Clone, Copy, Debug, PartialEq, Eq)]
pub struct Setting {
    pub output: Output,
    pub size: Size,
}

impl Setting {
    /// Returns the settings of a terminal of this colour depth. It is assumed to draw common symbols as wide as they
    /// are counted here. `columns` and `lines` are the values of two environment variables, each a number from 1 to
    /// 1000. If one is no such number, there are 80 columns or 24 rows.
    pub fn from_variables(depth: Depth, columns: &str, lines: &str) -> Setting
        ensures output { result.output ≡ output_of depth }
        ensures width { IsSide columns.now 80 result.size.width }
        ensures height { IsSide lines.now 24 result.size.height }
    {
        Setting {
            output: Output {
                depth,
                widths: KnownWidths::Common,
                synchronized: false,
            },
            size: Size {
                width: side_in(columns, 80),
                height: side_in(lines, 24),
            },
        }
    }
}

/// Returns the number of columns or rows in a string, or `otherwise` if it is no such number.
fn side_in(text: &str, otherwise: u16) -> u16
    ensures { IsSide text.now otherwise result }
{
    let sides = Numerals {
        digits: 4,
        least: 1,
        most: 1000,
    };
    match sides.number_in(text) {
        Some(side) => side as u16,
        None => otherwise,
    }
}
