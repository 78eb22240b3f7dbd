//! The settings of the terminal, from environment variables.

ghost use Rattle.std.specs.Prelude.{IfOk, codes};
ghost use Rattle.tui_system.specs.Setting.{AreSettings, IsDepthOf, IsSetting};

use crate::settings::Setting;
use crate::system::System;
use tui_cells::Mem;
use tui_terminal::depth_of;
use tui_terminal_model::Depth;

/// Returns the colour depth of the terminal, from `NO_COLOR`, `COLORTERM` and `TERM`, as `depth_of` does.
pub fn depth<S: System>(system: &S) -> Mem<Depth>
    ensures { IfOk result (IsDepthOf (S.gives system.now)) }
{
    let no_color = system.variable("NO_COLOR")?;
    let colorterm = system.variable("COLORTERM")?;
    let term = system.variable("TERM")?;
    Ok(depth_of(no_color.as_str(), colorterm.as_str(), term.as_str()))
}

/// Returns the terminal settings, from these variables and `COLUMNS` and `LINES`, as `Setting::from_variables` does.
pub fn setting<S: System>(system: &S) -> Mem<Setting>
    ensures given { IfOk result (AreSettings (S.gives system.now)) }
    ensures sides { IfOk result IsSetting }
{
    let depth = depth(system)?;
    let columns = system.variable("COLUMNS")?;
    let lines = system.variable("LINES")?;
    Ok(Setting::from_variables(depth, columns.as_str(), lines.as_str()))
}
