//! A task in the queue of a mutex.

ghost use Rattle.std.specs.Prelude.{◌≡◌};
ghost use Rattle.pim_c.specs.Shapes.{c_waiter};

use pim_base::Waiter;

/// A task in the queue of a mutex, in C.
#[repr(C)]
#[derive(Clone, Copy)]
pub struct CWaiter {
    /// The task that waits.
    pub task: u16,
    /// Its effective priority.
    pub prio: u16,
    /// Its ticket.
    pub ticket: u64,
}

impl CWaiter {
    /// Returns this waiter.
    pub fn of(waiter: Waiter) -> CWaiter
        ensures { result ≡ c_waiter waiter }
    {
        CWaiter {
            task: waiter.task.get(),
            prio: waiter.prio.get(),
            ticket: waiter.ticket,
        }
    }
}
