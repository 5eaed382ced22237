//! The changes of one owner or one wait, each with the walk that restores the stored priorities.

ghost use Rattle.std.specs.Prelude.{◌≡◌, ◌≢◌, ◌≤◌, ◌<◌, ◌+◌, ◌-◌, ◌^◌, None, Some, false, length, ℕ};
ghost use Rattle.pim_base.specs.declared.limits.TheConstants.{MAX_TASKS};
ghost use Rattle.pim_base.specs.State.{IsTask, IsMutex, owner_of, wait_of, with_owner, with_wait};
ghost use Rattle.pim_base.specs.Chains.{leads_back};
ghost use Rattle.pim_chain.specs.Views.{Ready, stored_at};
ghost use Rattle.pim_chain.specs.Owned.{given_to};
ghost use Rattle.pim_chain.specs.Settled.{SettledBut, changed};
ghost use Rattle.pim_sets.specs.Work.{Tells};

use crate::tables::Tables;
use crate::visits::Visits;
use pim_base::{MutexNo, TaskNo, Wait};

impl Tables {
    /// Makes the task, which must wait for nothing, the owner of the mutex, which must be free, and restores all
    /// stored priorities. They must be settled before.
    ///
    /// If the mutex gives no higher priority than the task has, a comparison shows that nothing else changes. Else the
    /// task is visited once.
    #[inline(always)]
    pub fn grant(&mut self, mutex: MutexNo, task: TaskNo, visits: &mut Visits)
        requires settled { SettledBut self.old.state (stored_at self.old) None }
        requires mutex { IsMutex self.old.state mutex }
        requires free { owner_of self.old.state mutex ≡ None }
        requires known { IsTask self.old.state task }
        requires idle { wait_of self.old.state task ≡ None }
        requires room { visits.old.count ≤ 2 ^ 32 - 1 - MAX_TASKS }
        ensures state { self.new.state ≡ with_owner self.old.state mutex (Some task) }
        ensures settled { SettledBut self.new.state (stored_at self.new) None }
        ensures ready { Ready self.new }
        ensures single { visits.new.count ≤ visits.old.count + 1 }
        ensures skipped { given_to self.old mutex task ≤ stored_at self.old task → visits.new.count ≡ visits.old.count }
        ensures once { stored_at self.old task < given_to self.old mutex task → visits.new.count ≡ visits.old.count + 1 }
        ensures work { Tells (length self.old.state.base) (stored_at self.old) visits.old (stored_at self.new) visits.new }
    {
        // The contract of this call gives the proof the invariant of the tables.
        let _tasks = self.tasks();
        self.bind(mutex, task);
        if !self.gives_no_more(mutex, task) {
            self.settle_from(task, visits);
        }
    }

    /// Lets the task wait as `join` does, for the mutex that has this owner, and restores all stored priorities. They
    /// must be settled before.
    ///
    /// If the mutex then gives no higher priority than its owner has, a comparison shows that nothing else changes.
    /// Else a walk begins at the owner.
    #[inline(always)]
    pub fn enqueue(
        &mut self,
        task: TaskNo,
        mutex: MutexNo,
        owner: TaskNo,
        ticket: u64,
        visits: &mut Visits,
    )
        requires settled { SettledBut self.old.state (stored_at self.old) None }
        requires known { IsTask self.old.state task }
        requires mutex { IsMutex self.old.state mutex }
        requires owned { owner_of self.old.state mutex ≡ Some owner }
        requires idle { wait_of self.old.state task ≡ None }
        requires closes_none { leads_back self.old.state task mutex ≡ false }
        requires fresh { (u : ℕ) → wait_of self.old.state u ≢ Some (record { mutex = mutex; ticket = ticket }) }
        requires room { visits.old.count ≤ 2 ^ 32 - 1 - MAX_TASKS }
        ensures state { self.new.state ≡ with_wait self.old.state task (Some (record { mutex = mutex; ticket = ticket })) }
        ensures settled { SettledBut self.new.state (stored_at self.new) None }
        ensures ready { Ready self.new }
        ensures work { Tells (length self.old.state.base) (stored_at self.old) visits.old (stored_at self.new) visits.new }
        ensures at_most { visits.new.count ≤ visits.old.count + changed self.old self.new + 1 }
    {
        // The contract of this call gives the proof the invariant of the tables.
        let _tasks = self.tasks();
        self.join(task, mutex, ticket);
        if !self.gives_no_more(mutex, owner) {
            self.settle_from(owner, visits);
        }
    }

    /// Lets the task, whose wait this is, stop waiting for the mutex that has this owner, and restores all stored
    /// priorities. They must be settled before.
    ///
    /// If the task gave less than the owner's priority, a comparison shows that nothing else changes. Else a walk begins
    /// at the owner.
    #[inline(always)]
    pub fn withdraw(&mut self, task: TaskNo, wait: Wait, owner: TaskNo, visits: &mut Visits)
        requires settled { SettledBut self.old.state (stored_at self.old) None }
        requires owned { owner_of self.old.state wait.mutex ≡ Some owner }
        requires waits { wait_of self.old.state task ≡ Some wait }
        requires room { visits.old.count ≤ 2 ^ 32 - 1 - MAX_TASKS }
        ensures state { self.new.state ≡ with_wait self.old.state task None }
        ensures settled { SettledBut self.new.state (stored_at self.new) None }
        ensures ready { Ready self.new }
        ensures work { Tells (length self.old.state.base) (stored_at self.old) visits.old (stored_at self.new) visits.new }
        ensures at_most { visits.new.count ≤ visits.old.count + changed self.old self.new + 1 }
    {
        // The contract of this call gives the proof the invariant of the tables.
        let _tasks = self.tasks();
        let given = self.given_by(task, wait.mutex);
        self.end_wait(task, wait.mutex, wait.ticket);
        if self.known_stored(owner).get() <= given {
            self.settle_from(owner, visits);
        }
    }
}
