//! Why a task has its effective priority.

ghost use Rattle.std.specs.Prelude.{◌≡◌};
ghost use Rattle.pim_c.specs.Shapes.{c_reason, no_reason};

use crate::numbers::{OF_BASE, OF_CEILING, OF_NOTHING, OF_WAITER};
use pim_base::Reason;

/// Why a task has its effective priority, in C.
#[repr(C)]
#[derive(Clone, Copy)]
pub struct CReason {
    /// The number of the reason.
    pub kind: u16,
    /// The task that waits, or 0.
    pub task: u16,
    /// The mutex with the ceiling, or that the task waits for, or 0.
    pub mutex: u16,
}

impl CReason {
    /// Returns the reason of an unknown task.
    pub fn none() -> CReason
        ensures { result ≡ no_reason }
    {
        CReason {
            kind: OF_NOTHING,
            task: 0,
            mutex: 0,
        }
    }

    /// Returns this reason.
    pub fn of(reason: Reason) -> CReason
        ensures { result ≡ c_reason reason }
    {
        let (kind, task, mutex) = match reason {
            Reason::Base => (OF_BASE, 0, 0),
            Reason::Ceiling(mutex) => (OF_CEILING, 0, mutex.get()),
            Reason::Waiter(task, mutex) => (OF_WAITER, task.get(), mutex.get()),
        };
        CReason { kind, task, mutex }
    }
}
