//! The mutexes that a step handed over.

ghost use Rattle.std.specs.Prelude.{◌≡◌};
ghost use Rattle.std.specs.Iterator.{YieldsFirst, item_count};
ghost use Rattle.std.specs.List.{filter_map};
ghost use Rattle.pim_manager.specs.Handed.{with_its_owner};

use crate::manager::Manager;
use crate::released::Released;
use pim_base::{MutexNo, TaskNo};
use pim_sets::Numbers;
use std::marker::Model;

/// A mutex that a step handed to a waiter.
#[derive(Clone, Copy, Debug, PartialEq, Eq)]
pub struct HandedMutex {
    /// The mutex.
    pub mutex: MutexNo,
    /// The task that owns it since then.
    pub task: TaskNo,
}

/// The mutexes that the last step handed to waiters, in ascending order, with their new owners.
///
/// Its value in contracts is the list of those that are left. It reads the owners of the mutexes that the step released.
#[derive(Drop)]
pub struct HandedMutexes<'a> {
    manager: &'a Manager,
    released: Numbers<'a>,
}

impl<'a> Model for HandedMutexes<'a> {
    ghost use Rattle.std.specs.Prelude.{List};
    ghost use Rattle.std.specs.List.{filter_map};
    ghost use Rattle.pim_manager.specs.Handed.{with_its_owner};
    ghost use Rattle.pim_manager.specs.declared.handed_mutexes.HandedMutex.{HandedMutex};

    ghost Value = { List HandedMutex };

    ghost view = { λ h. filter_map (with_its_owner h.manager.now) h.released };
}

impl<'a> HandedMutexes<'a> {
    /// Returns those of the released mutexes that have an owner.
    pub(crate) fn new(manager: &'a Manager, released: &'a Released) -> HandedMutexes<'a>
        ensures { result ≡ filter_map (with_its_owner manager.now) released.now }
    {
        HandedMutexes {
            manager,
            released: released.iter(),
        }
    }
}

impl<'a> Iterator for HandedMutexes<'a> {
    type Item = HandedMutex;

    ghost next_gives = { YieldsFirst (λ rest. rest) };

    ghost remaining = { item_count (λ rest. rest) };

    fn next(&mut self) -> Option<HandedMutex> {
        while let Some(number) = self.released.next() {
            let mutex = MutexNo(number);
            if let Some(task) = self.manager.owner_of(mutex) {
                return Some(HandedMutex { mutex, task });
            }
        }
        None
    }
}
