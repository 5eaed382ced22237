//! A task whose effective priority a step changed.

ghost use Rattle.std.specs.Prelude.{◌≡◌};
ghost use Rattle.pim_c.specs.Shapes.{c_changed_task};

use crate::reason::CReason;
use pim_manager::ChangedTask;

/// A task whose effective priority a step changed, in C.
#[repr(C)]
#[derive(Clone, Copy)]
pub struct CChangedTask {
    /// The task.
    pub task: u16,
    /// Its effective priority after the step.
    pub prio: u16,
    /// Why it has that.
    pub reason: CReason,
}

impl CChangedTask {
    /// Returns this task.
    pub fn of(changed: ChangedTask) -> CChangedTask
        ensures { result ≡ c_changed_task changed }
    {
        CChangedTask {
            task: changed.task.get(),
            prio: changed.prio.get(),
            reason: CReason::of(changed.reason),
        }
    }
}
