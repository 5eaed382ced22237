//! Why a task has its priority.

ghost use Rattle.std.specs.Prelude.{◌≡◌, ◌≤◌, ◌==◌, None};
ghost use Rattle.std.specs.List.{find, AllByRecursion};
ghost use Rattle.pim_base.specs.State.{IsTask, IsMutex, owned};
ghost use Rattle.pim_base.specs.Priorities.{ceiling_of};
ghost use Rattle.pim_base.specs.Reasons.{reason_of};
ghost use Rattle.pim_chain.specs.Views.{stored_at};
ghost use Rattle.pim_chain.specs.Settled.{SettledBut};
ghost use Rattle.pim_chain.specs.Owned.{donates_now, first_reason, owned_reason};

use crate::tables::Tables;
use pim_base::{MutexNo, Protocol, Reason, TaskNo};
use pim_sets::Owned;

impl Tables {
    /// Returns why the known task has its effective priority. The stored priorities must be settled.
    ///
    /// The reason is the base if that is the priority, else the least owned PROTECT mutex with this ceiling, else the
    /// least owned INHERIT mutex with a waiter of this priority, and its first waiter. Reads each mutex that the task
    /// owns at most once, and none if the reason is the base.
    #[inline(always)]
    #[tactic(auto, using(crate::proofs::Reasons::reason_base, crate::proofs::Reasons::reason_at))]
    pub fn reason(&self, task: TaskNo) -> Reason
        requires settled { SettledBut self.now.state (stored_at self.now) None }
        requires known { IsTask self.now.state task }
        ensures { result ≡ reason_of self.now.state task }
    {
        // The contract of this call gives the proof the invariant of the tables.
        let _tasks = self.tasks();
        let level = self.known_stored(task).get();
        if level == self.known_base(task).get() {
            return Reason::Base;
        }
        self.owned_reason(task, level)
    }

    // Returns the least mutex of the task with this ceiling as the reason, else the first waiter for the least INHERIT
    // mutex whose waiters donate this priority. One pass over the mutexes finds both. Not inlined, so that the search
    // takes no registers from a loop over tasks.
    #[inline(never)]
    #[tactic(auto, using(crate::proofs::Known::owned_mutexes))]
    fn owned_reason(&self, task: TaskNo, level: u16) -> Reason
        requires known { IsTask self.now.state task }
        requires level { 1 ≤ level }
        ensures { result ≡ owned_reason self.now level (owned self.now.state task) }
    {
        // The contract of this call gives the proof the invariant of the tables.
        let _tasks = self.tasks();
        let mut owned = self.owned(task);
        while let Some(mutex) = owned.next() {
            if self.has_ceiling(mutex, level) {
                return Reason::Ceiling(mutex);
            }
            if self.donates(mutex, level) {
                return match self.first_ceiling(&mut owned, level) {
                    Some(other) => Reason::Ceiling(other),
                    None => self.waiter_reason(mutex),
                };
            }
        }
        Reason::Base
    }

    // Returns the first of these mutexes with this ceiling.
    fn first_ceiling(&self, mutexes: &mut Owned, level: u16) -> Option<MutexNo>
        requires known { AllByRecursion (IsMutex self.now.state) mutexes.old }
        requires level { 1 ≤ level }
        ensures { result ≡ find (λ m. ceiling_of self.now.state m == level) mutexes.old }
    {
        while let Some(mutex) = mutexes.next() {
            if self.has_ceiling(mutex, level) {
                return Some(mutex);
            }
        }
        None
    }

    // Returns the first waiter for the known mutex as the reason.
    fn waiter_reason(&self, mutex: MutexNo) -> Reason
        requires { IsMutex self.now.state mutex }
        ensures { result ≡ first_reason self.now mutex }
    {
        let first = self.known_first(mutex);
        first.map_or(Reason::Base, |first| Reason::Waiter(first.task, mutex))
    }

    // Returns whether the mutex is an INHERIT one whose first waiter has this priority.
    fn donates(&self, mutex: MutexNo, level: u16) -> bool
        requires known { IsMutex self.now.state mutex }
        requires level { 1 ≤ level }
        ensures { result ≡ donates_now self.now level mutex }
    {
        match self.known_protocol(mutex) {
            Protocol::Inherit | Protocol::InheritRecursive => {
                let first = self.known_first(mutex);
                first.is_some_and(|first| first.prio.get() == level)
            }
            Protocol::None | Protocol::Protect(_) => false,
        }
    }

    // Returns whether the mutex is a PROTECT one with this ceiling.
    fn has_ceiling(&self, mutex: MutexNo, level: u16) -> bool
        requires known { IsMutex self.now.state mutex }
        requires level { 1 ≤ level }
        ensures { result ≡ (ceiling_of self.now.state mutex == level) }
    {
        match self.known_protocol(mutex) {
            Protocol::Protect(ceiling) => ceiling.get() == level,
            Protocol::None | Protocol::Inherit | Protocol::InheritRecursive => false,
        }
    }
}
