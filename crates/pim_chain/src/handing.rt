//! The hand-over of one mutex, and of all that a task owns.

ghost use Rattle.std.specs.Prelude.{◌≡◌, ◌≢◌, ◌≤◌, ◌<◌, ◌+◌, ◌*◌, ◌-◌, ◌^◌, None, Some, length, ℕ};
ghost use Rattle.std.specs.List.{fold};
ghost use Rattle.std.specs.Option.{option_map};
ghost use Rattle.pim_base.specs.declared.limits.TheConstants.{MAX_TASKS, MAX_MUTEXES};
ghost use Rattle.pim_base.specs.Queues.{first_of};
ghost use Rattle.pim_base.specs.State.{IsTask, owner_of, owned, wait_of, with_owner, with_wait};
ghost use Rattle.pim_base.specs.Steps.{hand_over};
ghost use Rattle.pim_base.specs.declared.steps.Waiter.{Waiter};
ghost use Rattle.pim_chain.specs.Views.{Ready, stored_at};
ghost use Rattle.pim_chain.specs.Owned.{given, new_owner_visits, old_owner_visits};
ghost use Rattle.pim_chain.specs.Settled.{SettledBut, Unsettles, SettledIdle, HandedAll};
ghost use Rattle.pim_sets.specs.Work.{Tells, VisitedOnce};

use crate::tables::Tables;
use crate::visits::Visits;
use pim_base::{MutexNo, TaskNo, Waiter};
use pim_sets::{Owned, put};

impl Tables {
    // Stores the local priority of a task that waits for nothing. This is one visit.
    //
    // It is [2] and [3] of the walk again. A walk begins with one task unsettled, and within a hand-over there are two:
    // the new owner, and the old one. No priority depends on a task that waits for nothing, so no further step is due.
    fn settle_idle(&mut self, task: TaskNo, visits: &mut Visits)
        requires known { IsTask self.old.state task }
        requires idle { wait_of self.old.state task ≡ None }
        requires room { visits.old.count < 2 ^ 32 - 1 }
        ensures right { SettledIdle self.old self.new task }
        ensures work { VisitedOnce (length self.old.state.base) (stored_at self.old) visits.old (stored_at self.new) visits.new }
        ensures ready { Ready self.new }
    {
        let prio = self.local(task, visits);
        let had = self.known_stored(task);
        if prio == had {
            return;
        }
        visits.note(task, had, prio);
        put(&mut self.stored, task.get(), prio);
    }

    // Gives the free mutex to this waiter for it. The new owner is visited, unless a comparison shows that its priority
    // stays.
    //
    // One task that waits for nothing may have another stored priority than its local one, before and after: no other
    // task's priority depends on it.
    #[inline(always)]
    fn give_to(&mut self, mutex: MutexNo, waiter: &Waiter, visits: &mut Visits)
        requires free { owner_of self.old.state mutex ≡ None }
        requires waits { wait_of self.old.state waiter.now.task ≡ Some (record { mutex = mutex; ticket = waiter.now.ticket }) }
        requires room { visits.old.count < 2 ^ 32 - 1 }
        ensures state { self.new.state ≡ with_owner (with_wait self.old.state waiter.now.task None) mutex (Some waiter.now.task) }
        ensures settled { (a : ℕ) → wait_of self.old.state a ≡ None → SettledBut self.old.state (stored_at self.old) (Some a)
            → SettledBut self.new.state (stored_at self.new) (Some a) }
        ensures work { Tells (length self.old.state.base) (stored_at self.old) visits.old (stored_at self.new) visits.new }
        ensures counted { visits.new.count ≡ visits.old.count + new_owner_visits self.old self.new mutex }
        ensures ready { Ready self.new }
    {
        // The contract of this call gives the proof the invariant of the tables.
        let _tasks = self.tasks();
        self.end_wait(waiter.task, mutex, waiter.ticket);
        self.bind(mutex, waiter.task);
        if !self.gives_no_more(mutex, waiter.task) {
            self.settle_idle(waiter.task, visits);
        }
    }

    // Takes the mutex from its owner, which waits for nothing, hands it to the first waiter, if there is one, and returns
    // that task.
    //
    // All other tasks than the owner have their local priorities before and after. If the owner has its own before, too,
    // and it is above what the mutex gives, it keeps it.
    #[inline(always)]
    fn hand_over_unsettled(
        &mut self,
        mutex: MutexNo,
        owner: TaskNo,
        visits: &mut Visits,
    ) -> Option<TaskNo>
        requires settled { SettledBut self.old.state (stored_at self.old) (Some owner) }
        requires owned { owner_of self.old.state mutex ≡ Some owner }
        requires idle { wait_of self.old.state owner ≡ None }
        requires room { visits.old.count < 2 ^ 32 - 1 }
        ensures new_owner { result ≡ option_map (λ (w : Waiter). w.task) (first_of self.old.state mutex) }
        ensures state { self.new.state ≡ hand_over self.old.state mutex }
        ensures settled { SettledBut self.new.state (stored_at self.new) (Some owner) }
        ensures stays_settled { given self.old mutex < stored_at self.old owner → Unsettles self.old self.new None }
        ensures owns_no_more { owner_of self.new.state mutex ≢ Some owner }
        ensures work { Tells (length self.old.state.base) (stored_at self.old) visits.old (stored_at self.new) visits.new }
        ensures counted { visits.new.count ≡ visits.old.count + new_owner_visits self.old self.new mutex }
        ensures ready { Ready self.new }
    {
        // The contract of this call gives the proof the invariant of the tables.
        let _tasks = self.tasks();
        let first = self.known_first(mutex);
        self.unbind_from(mutex, owner);
        if let Some(waiter) = &first {
            self.give_to(mutex, waiter, visits);
            return Some(waiter.task);
        }
        None
    }

    /// Takes the mutex from its owner, which must wait for nothing, hands it to the first waiter, if there is one, and
    /// restores all stored priorities. They must be settled before. Returns the new owner, `None` if no task waited.
    ///
    /// The new owner and then the old one are visited, each once, unless a comparison shows that its priority stays.
    #[inline(always)]
    pub fn hand_over(
        &mut self,
        mutex: MutexNo,
        owner: TaskNo,
        visits: &mut Visits,
    ) -> Option<TaskNo>
        requires settled { SettledBut self.old.state (stored_at self.old) None }
        requires owned { owner_of self.old.state mutex ≡ Some owner }
        requires idle { wait_of self.old.state owner ≡ None }
        requires room { visits.old.count ≤ 2 ^ 32 - 2 - MAX_TASKS }
        ensures new_owner { result ≡ option_map (λ (w : Waiter). w.task) (first_of self.old.state mutex) }
        ensures state { self.new.state ≡ hand_over self.old.state mutex }
        ensures settled { SettledBut self.new.state (stored_at self.new) None }
        ensures ready { Ready self.new }
        ensures work { Tells (length self.old.state.base) (stored_at self.old) visits.old (stored_at self.new) visits.new }
        ensures counted { visits.new.count ≡ visits.old.count + new_owner_visits self.old self.new mutex + old_owner_visits self.old mutex owner }
        ensures most { visits.new.count ≤ visits.old.count + 2 }
    {
        // The contract of this call gives the proof the invariant of the tables.
        let _tasks = self.tasks();
        let may_fall = self.known_stored(owner).get() <= self.given_level(mutex);
        let new_owner = self.hand_over_unsettled(mutex, owner, visits);
        if may_fall {
            self.settle_from(owner, visits);
        }
        new_owner
    }

    // Hands over all mutexes that the task owns, in ascending order, and returns how many. The task waits for nothing.
    // All other tasks have their local priorities afterwards.
    fn hand_over_all(&mut self, task: TaskNo, visits: &mut Visits) -> u16
        requires settled { SettledBut self.old.state (stored_at self.old) None }
        requires known { IsTask self.old.state task }
        requires idle { wait_of self.old.state task ≡ None }
        requires room { visits.old.count ≤ 2 ^ 32 - 1 - MAX_TASKS - MAX_MUTEXES }
        ensures handed { HandedAll self.old self.new task result }
        ensures ready { Ready self.new }
        ensures work { Tells (length self.old.state.base) (stored_at self.old) visits.old (stored_at self.new) visits.new }
        ensures most { visits.new.count ≤ visits.old.count + result }
    {
        // The contract of this call gives the proof the invariant of the tables.
        let _tasks = self.tasks();
        let mut released = 0;
        let owned = self.owned_set(task); // a copy, since each hand-over takes its mutex out of the set
        for mutex in Owned::new(&owned) {
            self.hand_over_unsettled(mutex, task, visits);
            released += 1;
        }
        released
    }

    /// Hands over all mutexes that the task owns, which must wait for nothing, in ascending order, and restores all
    /// stored priorities. They must be settled before. Returns how many mutexes it handed over.
    ///
    /// Each new owner is visited once, unless a comparison shows that its priority stays, and the task itself once, at
    /// the end, if it owned a mutex. Until then its stored priority may differ from its local one: it waits for nothing, so no other task's
    /// priority depends on it.
    pub fn release_all(&mut self, task: TaskNo, visits: &mut Visits) -> u16
        requires settled { SettledBut self.old.state (stored_at self.old) None }
        requires known { IsTask self.old.state task }
        requires idle { wait_of self.old.state task ≡ None }
        requires room { visits.old.count ≤ 2 ^ 32 - 1 - MAX_TASKS - MAX_MUTEXES }
        ensures released { result ≡ length (owned self.old.state task) }
        ensures state { self.new.state ≡ fold hand_over self.old.state (owned self.old.state task) }
        ensures settled { SettledBut self.new.state (stored_at self.new) None }
        ensures ready { Ready self.new }
        ensures work { Tells (length self.old.state.base) (stored_at self.old) visits.old (stored_at self.new) visits.new }
        ensures most { visits.new.count ≤ visits.old.count + result + 1 }
        ensures twice { visits.new.count ≤ visits.old.count + 2 * result }
    {
        let released = self.hand_over_all(task, visits);
        if released > 0 {
            self.settle_from(task, visits);
        }
        released
    }
}
