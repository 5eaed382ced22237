//! The walk that restores the stored priorities, and stops early.

ghost use Rattle.std.specs.Prelude.{◌≡◌, ◌≢◌, ◌≤◌, ◌<◌, ◌+◌, ◌-◌, ◌^◌, None, Some, length, unwrap_or, ℕ, ◌↔◌, IsTrue};
ghost use Rattle.pim_base.specs.declared.limits.TheConstants.{MAX_TASKS};
ghost use Rattle.pim_base.specs.State.{IsTask, IsMutex, owner_of};
ghost use Rattle.pim_base.specs.Chains.{heir};
ghost use Rattle.pim_base.specs.Priorities.{local_priority, effective_priority};
ghost use Rattle.pim_base.specs.Queues.{queue_of};
ghost use Rattle.pim_chain.specs.Views.{Ready, stored_at, queue_at, first_prio};
ghost use Rattle.pim_chain.specs.Owned.{given, given_by};
ghost use Rattle.pim_chain.specs.Settled.{SettledBut, Visited, next_of, changed};
ghost use Rattle.pim_sets.specs.Work.{Tells, VisitedOnce};

use crate::tables::Tables;
use crate::visits::Visits;
use pim_base::{MutexNo, Prio, Protocol, TaskNo, Waiter, higher};
use pim_sets::put;

impl Tables {
    // Returns the priority of the first waiter for the known mutex.
    fn first_prio(&self, mutex: MutexNo) -> Option<Prio>
        requires { IsMutex self.now.state mutex }
        ensures { unwrap_or result 0 ≡ first_prio (queue_at self.now mutex) }
    {
        self.known_first(mutex).map(|first| first.prio)
    }

    // Returns the priority that the owned mutex gives its owner: its ceiling, or the donation of its first waiter.
    #[inline(always)]
    fn given(&self, mutex: MutexNo) -> Option<Prio>
        requires { owner_of self.now.state mutex ≢ None }
        ensures { unwrap_or result 0 ≡ given self.now mutex }
    {
        // The contract of this call gives the proof the invariant of the tables.
        let _tasks = self.tasks();
        match self.known_protocol(mutex) {
            Protocol::Inherit | Protocol::InheritRecursive => self.first_prio(mutex),
            Protocol::Protect(ceiling) => Some(ceiling),
            Protocol::None => None,
        }
    }

    // Returns the level of this priority, 0 if the mutex gives none.
    #[inline(always)]
    pub(crate) fn given_level(&self, mutex: MutexNo) -> u16
        requires { owner_of self.now.state mutex ≢ None }
        ensures { result ≡ given self.now mutex }
    {
        self.given(mutex).map_or(0, |prio| prio.get())
    }

    // Returns whether the priority that the owned mutex gives its owner is no higher than the task's.
    #[inline(always)]
    pub(crate) fn gives_no_more(&self, mutex: MutexNo, task: TaskNo) -> bool
        requires owned { owner_of self.now.state mutex ≢ None }
        requires known { IsTask self.now.state task }
        ensures { IsTrue result ↔ (given self.now mutex ≤ stored_at self.now task) }
    {
        self.given_level(mutex) <= self.known_stored(task).get()
    }

    // Returns the level that a known task gives the owner of the known mutex that it waits for, or 0 unless that is an
    // INHERIT one.
    #[inline(always)]
    pub(crate) fn given_by(&self, task: TaskNo, mutex: MutexNo) -> u16
        requires known { IsTask self.now.state task }
        requires mutex { IsMutex self.now.state mutex }
        ensures { result ≡ given_by self.now task mutex }
    {
        if self.known_protocol(mutex).is_inherit() {
            self.known_stored(task).get()
        } else {
            0
        }
    }

    /// Computes the local priority of the task: the greatest of its base, the ceilings of its PROTECT mutexes and the
    /// donations of the first waiters for its INHERIT mutexes.
    ///
    /// This is a visit, and is counted. It reads each mutex that the task owns.
    pub fn local(&self, task: TaskNo, visits: &mut Visits) -> Prio
        requires known { IsTask self.now.state task }
        requires room { visits.old.count < 2 ^ 32 - 1 }
        ensures value { result ≡ local_priority self.now.state (stored_at self.now) task }
        ensures counted { visits.new ≡ record visits.old { count = visits.old.count + 1 } }
        ensures ready { Ready self.now }
    {
        visits.add(); // this one
        // The contract of this call gives the proof the invariant of the tables.
        let _tasks = self.tasks();
        let mut prio = self.known_base(task);
        for mutex in self.owned(task) {
            if let Some(given) = self.given(mutex) {
                prio = higher(prio, given);
            }
        }
        prio
    }

    // [2] to [6], one turn of the walk: restores one task's priority, and returns the task to go on with.
    #[inline(always)]
    fn visit(&mut self, task: TaskNo, visits: &mut Visits) -> Option<TaskNo>
        requires settled { SettledBut self.old.state (stored_at self.old) (Some task) }
        requires known { IsTask self.old.state task }
        requires room { visits.old.count < 2 ^ 32 - 1 }
        ensures visited { Visited self.old self.new task result }
        ensures next { result ≡ next_of self.old self.new task }
        ensures counted { visits.new.count ≡ visits.old.count + 1 }
        ensures work { VisitedOnce (length self.old.state.base) (stored_at self.old) visits.old (stored_at self.new) visits.new }
        ensures ready { Ready self.new }
    {
        // [2]
        let prio = self.local(task, visits);
        let had = self.known_stored(task);
        if prio == had {
            return None;
        }
        // [3]
        visits.note(task, had, prio);
        let wait = self.known_wait(task);
        put(&mut self.stored, task.get(), prio);
        let wait = wait?;
        // [4]
        let before = self.queues.first_level(wait.mutex);
        let waiter = Waiter {
            task,
            prio: had,
            ticket: wait.ticket,
        };
        self.queues.reposition(wait.mutex, &waiter, prio);
        // [5]
        if self.queues.first_level(wait.mutex) == before {
            return None;
        }
        // [6]
        self.heir_of(wait.mutex)
    }

    /// Walks from a task whose local priority a change may have altered, and restores all stored priorities and
    /// queues.
    ///
    /// 1. `[1]` Begin with the given task.
    /// 2. `[2]` Visit it: compute its local priority. If that is the stored one, stop.
    /// 3. `[3]` Note what it had, and store the new priority. If the task waits for nothing, stop.
    /// 4. `[4]` Move the task, with its ticket, to its place in the queue that it waits in.
    /// 5. `[5]` If the priority of the first waiter in that queue is what it was, stop.
    /// 6. `[6]` Go on at `[2]` with the heir, the owner of an INHERIT mutex. If there is none, stop.
    ///
    /// Before the walk every task but the given one must have the stored priority that it has locally. After it each
    /// stored priority is the effective one, each queue is in the order of these priorities, and nothing else changed.
    ///
    /// # Cost
    ///
    /// At most one more visit than there are tasks whose priority changes, and a single visit if the task hands its
    /// priority on to no task. A visit reads each mutex that its task owns. `[4]` finds both places by binary search,
    /// and shifts the waiters between them. The walk never allocates, and never reads all tasks.
    pub fn settle_from(&mut self, task: TaskNo, visits: &mut Visits)
        requires settled { SettledBut self.old.state (stored_at self.old) (Some task) }
        requires known { IsTask self.old.state task }
        requires room { visits.old.count ≤ 2 ^ 32 - 1 - MAX_TASKS }
        ensures state { self.new.state ≡ self.old.state }
        ensures settled { SettledBut self.new.state (stored_at self.new) None }
        ensures effective { (t : ℕ) → IsTask self.new.state t → stored_at self.new t ≡ effective_priority self.new.state t }
        ensures queues { (m : ℕ) → IsMutex self.new.state m → queue_at self.new m ≡ queue_of self.new.state m }
        ensures ready { Ready self.new }
        ensures single { heir self.old.state task ≡ None → visits.new.count ≡ visits.old.count + 1 }
        ensures work { Tells (length self.old.state.base) (stored_at self.old) visits.old (stored_at self.new) visits.new }
        ensures at_most { visits.new.count ≤ visits.old.count + changed self.old self.new + 1 }
    {
        // The contract of this call gives the proof the invariant of the tables.
        let _tasks = self.tasks();
        // [1]
        let mut next = Some(task);
        while let Some(current) = next {
            next = self.visit(current, visits);
        }
    }
}
