//! The tests that refuse a step or decide its reply.

ghost use Rattle.std.specs.Prelude.{◌≡◌};
ghost use Rattle.pim_base.specs.State.{protocol_of, is_recursive, relocks};
ghost use Rattle.pim_base.specs.Checks.{unknown_task, unknown_mutex, is_waiting, is_owned, is_busy, owned_by_another};
ghost use Rattle.pim_base.specs.Checks.{locked_too_often, above_ceiling};
ghost use Rattle.pim_base.specs.Steps.{is_kept};

use crate::plain_manager::PlainManager;
use pim_base::{MAX_COUNT, MutexNo, TaskNo};

impl PlainManager {
    /// Returns whether no task has this number.
    pub fn is_unknown_task(&self, task: TaskNo) -> bool
        ensures { result ≡ unknown_task self.now task }
    {
        task.get() == 0 || self.tasks() < task.get()
    }

    /// Returns whether no mutex has this number.
    pub fn is_unknown_mutex(&self, mutex: MutexNo) -> bool
        ensures { result ≡ unknown_mutex self.now mutex }
    {
        mutex.get() == 0 || self.mutexes() < mutex.get()
    }

    /// Returns whether the mutex has an owner.
    pub fn is_owned(&self, mutex: MutexNo) -> bool
        ensures { result ≡ is_owned self.now mutex }
    {
        self.owner_of(mutex).is_some()
    }

    /// Returns whether the mutex is a recursive one.
    fn is_recursive(&self, mutex: MutexNo) -> bool
        ensures { result ≡ is_recursive (protocol_of self.now mutex) }
    {
        self.protocol(mutex)
            .is_some_and(|protocol| protocol.is_recursive())
    }

    /// Returns whether the task would lock a mutex that it owns once more, and the mutex is a recursive one.
    pub fn relocks(&self, task: TaskNo, mutex: MutexNo) -> bool
        ensures { result ≡ relocks self.now task mutex }
    {
        self.is_recursive(mutex) && self.owns(task, mutex)
    }

    /// Returns whether the task can't have the mutex now: it is owned, and the task doesn't lock it once more.
    pub fn is_busy(&self, task: TaskNo, mutex: MutexNo) -> bool
        ensures { result ≡ is_busy self.now task mutex }
    {
        self.is_owned(mutex) && !self.relocks(task, mutex)
    }

    /// Returns whether the task would lock the mutex once more than can be counted.
    pub fn is_locked_too_often(&self, task: TaskNo, mutex: MutexNo) -> bool
        ensures { result ≡ locked_too_often self.now task mutex }
    {
        self.relocks(task, mutex) && self.count_of(mutex) == MAX_COUNT
    }

    /// Returns whether the owner keeps the mutex when it unlocks it.
    pub fn is_kept(&self, mutex: MutexNo) -> bool
        ensures { result ≡ is_kept self.now mutex }
    {
        self.is_recursive(mutex) && self.count_of(mutex) > 1
    }

    /// Returns whether a task other than this one owns the mutex.
    pub fn is_owned_by_another(&self, task: TaskNo, mutex: MutexNo) -> bool
        ensures { result ≡ owned_by_another self.now task mutex }
    {
        self.owner_of(mutex).is_some_and(|owner| owner != task)
    }

    /// Returns whether the task waits.
    pub fn is_waiting(&self, task: TaskNo) -> bool
        ensures { result ≡ is_waiting self.now task }
    {
        self.wait_of(task).is_some()
    }

    /// Returns whether the mutex is a PROTECT mutex whose ceiling is below the task's base.
    pub fn is_above_ceiling(&self, task: TaskNo, mutex: MutexNo) -> bool
        ensures { result ≡ above_ceiling self.now task mutex }
    {
        match (self.ceiling(mutex), self.base(task)) {
            (Some(ceiling), Some(base)) => ceiling < base,
            _ => false,
        }
    }
}
