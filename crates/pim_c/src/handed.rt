//! A mutex that a step handed to a waiter.

ghost use Rattle.std.specs.Prelude.{◌≡◌};
ghost use Rattle.pim_c.specs.Shapes.{c_handed};

use pim_manager::HandedMutex;

/// A mutex that a step handed to a waiter, in C.
#[repr(C)]
#[derive(Clone, Copy)]
pub struct CHanded {
    /// The mutex.
    pub mutex: u16,
    /// Its new owner.
    pub task: u16,
}

impl CHanded {
    /// Returns this mutex and its owner.
    pub fn of(handed: HandedMutex) -> CHanded
        ensures { result ≡ c_handed handed }
    {
        CHanded {
            mutex: handed.mutex.get(),
            task: handed.task.get(),
        }
    }
}
