//! The checks of a step, but for the deadlock test.

ghost use Rattle.std.specs.Prelude.{◌≡◌, ◌↔◌, IsTrue, ℕ, Some};
ghost use Rattle.pim_base.specs.Lists.{holds};
ghost use Rattle.pim_base.specs.State.{IsTask, IsMutex, owner_of, wait_of, relocks};
ghost use Rattle.pim_base.specs.Checks.{unknown_task, unknown_mutex, above_ceiling};
ghost use Rattle.pim_base.specs.Steps.{is_kept};

use crate::tables::Tables;
use pim_base::{MutexNo, Protocol, TaskNo};

impl Tables {
    /// Returns whether no task has this number.
    pub fn is_unknown_task(&self, task: TaskNo) -> bool
        ensures { result ≡ unknown_task self.now.state task }
    {
        task.get() == 0 || self.tasks() < task.get()
    }

    /// Returns whether no mutex has this number.
    pub fn is_unknown_mutex(&self, mutex: MutexNo) -> bool
        ensures { result ≡ unknown_mutex self.now.state mutex }
    {
        mutex.get() == 0 || self.mutexes() < mutex.get()
    }

    /// Returns whether the task owns the known mutex.
    pub fn known_owns(&self, task: TaskNo, mutex: MutexNo) -> bool
        requires { IsMutex self.now.state mutex }
        ensures { result ≡ holds (owner_of self.now.state mutex) task }
    {
        self.known_owner(mutex) == Some(task)
    }

    /// Returns whether the task is this owner of the mutex, and may lock it again.
    pub fn known_relocks(&self, task: TaskNo, mutex: MutexNo, owner: TaskNo) -> bool
        requires { owner_of self.now.state mutex ≡ Some owner }
        ensures { result ≡ relocks self.now.state task mutex }
    {
        // The contract of this call gives the proof the invariant of the tables.
        let _tasks = self.tasks();
        self.known_protocol(mutex).is_recursive() && owner == task
    }

    /// Returns whether its owner keeps the known mutex when it unlocks it once.
    pub fn known_kept(&self, mutex: MutexNo) -> bool
        requires { IsMutex self.now.state mutex }
        ensures { result ≡ is_kept self.now.state mutex }
    {
        self.known_protocol(mutex).is_recursive() && 1 < self.count_of(mutex)
    }

    /// Returns whether a task waits for the mutex with this ticket. Reads each waiter.
    #[tactic(auto, using(crate::proofs::Fields::ticket_told))]
    pub fn has_ticket(&self, mutex: MutexNo, ticket: u64) -> bool
        ensures { IsTrue result ↔ ((t : ℕ) × (wait_of self.now.state t ≡ Some (record { mutex = mutex; ticket = ticket }))) }
    {
        // The contract of this call gives the proof the invariant of the tables.
        let _tasks = self.tasks();
        match self.queue(mutex) {
            Some(queue) => queue.has_ticket(ticket),
            None => false,
        }
    }

    /// Returns whether the base of the known task is above the ceiling of the known mutex.
    pub fn known_above_ceiling(&self, task: TaskNo, mutex: MutexNo) -> bool
        requires known { IsTask self.now.state task }
        requires mutex { IsMutex self.now.state mutex }
        ensures { result ≡ above_ceiling self.now.state task mutex }
    {
        match self.known_protocol(mutex) {
            Protocol::Protect(ceiling) => ceiling < self.known_base(task),
            Protocol::None | Protocol::Inherit | Protocol::InheritRecursive => false,
        }
    }
}
