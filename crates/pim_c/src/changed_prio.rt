//! The priority of a task that a step changed.

ghost use Rattle.std.specs.Prelude.{◌≡◌};
ghost use Rattle.pim_c.specs.Shapes.{c_changed_prio};

use pim_manager::ChangedPrio;

/// A task whose effective priority a step changed, in C, without the reason.
#[repr(C)]
#[derive(Clone, Copy)]
pub struct CChangedPrio {
    /// The task.
    pub task: u16,
    /// Its effective priority after the step.
    pub prio: u16,
}

impl CChangedPrio {
    /// Returns this task.
    pub fn of(changed: ChangedPrio) -> CChangedPrio
        ensures { result ≡ c_changed_prio changed }
    {
        CChangedPrio {
            task: changed.task.get(),
            prio: changed.prio.get(),
        }
    }
}
