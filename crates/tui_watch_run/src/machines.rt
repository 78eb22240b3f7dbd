//! The machines that can be watched.

ghost use Rattle.std.specs.Prelude.{Option, String};
ghost use Rattle.std.specs.declared.alloc.Global.{Global};

use tui_watch_lib::Machine;

/// The folders of a system that are laid out as /proc, as machines.
pub trait Machines {
    /// A machine.
    type Machine: Machine + Drop;

    // Whether a machine is the one of a folder; None is /proc.
    ghost is_at: { Self → Option (String Global) → Self.Machine → Type 0 };

    /// Returns the machine of a folder, or that of /proc.
    fn at(&self, folder: Option<String>) -> Self::Machine
        ensures { is_at self.now folder result };
}
