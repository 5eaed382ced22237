//! Why a task has its effective priority.

ghost use Rattle.std.specs.Prelude.{◌≡◌, ◌==◌, ℕ, Bool, IsTrue};
ghost use Rattle.std.specs.List.{find, list_any};
ghost use Rattle.pim_base.specs.State.{IsTask, owned};
ghost use Rattle.pim_base.specs.Checks.{unknown_task};
ghost use Rattle.pim_base.specs.Priorities.{ceiling_of};
ghost use Rattle.pim_base.specs.Queues.{queue_of};
ghost use Rattle.pim_base.specs.Reasons.{reason_of, waiter_reason, donates};

use crate::plain_manager::PlainManager;
use pim_base::{MutexNo, Prio, Reason, TaskNo};

impl PlainManager {
    /// Returns why a task has its effective priority; `None` for an unknown one.
    pub fn reason(&self, task: TaskNo) -> Option<Reason>
        ensures unknown { IsTrue (unknown_task self.now task) → result ≡ None }
        ensures known { IsTask self.now task → result ≡ Some (reason_of self.now task) }
    {
        if self.is_unknown_task(task) {
            None
        } else {
            Some(self.reason_of(task))
        }
    }

    /// Returns why a known task has its effective priority: the first of its base, a ceiling and a waiter.
    fn reason_of(&self, task: TaskNo) -> Reason
        requires { IsTask self.now task }
        ensures { result ≡ reason_of self.now task }
    {
        let prio = self.effective_priority(task);
        if prio == self.base_of(task) {
            return Reason::Base;
        }
        match self.ceiling_at(task, prio) {
            Some(mutex) => Reason::Ceiling(mutex),
            None => self.waiter_reason(self.source_at(task, prio)),
        }
    }

    /// Returns the least mutex that the task owns and that passes: that for which `p` is true, where the calls of `passes`
    /// answer as `p` does.
    fn least_owned<F: Fn(MutexNo) -> bool>(&self, task: TaskNo, passes: F) -> Option<MutexNo>
        requires { F.IsAlwaysCallable passes }
        ensures { (p : ℕ → Bool) → ((m : ℕ) (b : Bool) → F.post passes m b → b ≡ p m) → result ≡ find p (owned self.now task) }
    {
        for number in 1..self.mutexes() + 1 {
            let mutex = MutexNo(number);
            if self.owns(task, mutex) && passes(mutex) {
                return Some(mutex);
            }
        }
        None
    }

    /// Returns the least mutex that the task owns whose ceiling is that priority.
    fn ceiling_at(&self, task: TaskNo, prio: Prio) -> Option<MutexNo>
        ensures { result ≡ find (λ m. ceiling_of self.now m == prio) (owned self.now task) }
    {
        self.least_owned(task, |mutex| self.has_ceiling(mutex, prio))
    }

    /// Returns the least INHERIT mutex that the task owns for which a task waits at that priority.
    fn source_at(&self, task: TaskNo, prio: Prio) -> Option<MutexNo>
        ensures { result ≡ find (donates self.now prio) (owned self.now task) }
    {
        self.least_owned(task, |mutex| self.donates(mutex, prio))
    }

    /// Returns the first waiter for this mutex as the reason.
    fn waiter_reason(&self, source: Option<MutexNo>) -> Reason
        ensures { result ≡ waiter_reason self.now source }
    {
        let Some(mutex) = source else {
            return Reason::Base;
        };
        match &self.first_of(mutex) {
            Some(waiter) => Reason::Waiter(waiter.task, mutex),
            None => Reason::Base,
        }
    }

    /// Returns whether the mutex has this ceiling.
    fn has_ceiling(&self, mutex: MutexNo, prio: Prio) -> bool
        ensures { result ≡ (ceiling_of self.now mutex == prio) }
    {
        self.ceiling(mutex) == Some(prio)
    }

    /// Returns whether the mutex is an INHERIT mutex for which a task waits at this priority.
    fn donates(&self, mutex: MutexNo, prio: Prio) -> bool
        ensures { result ≡ donates self.now prio mutex }
    {
        let protocol = self.protocol(mutex);
        protocol.is_some_and(|protocol| protocol.is_inherit()) && self.has_waiter_at(mutex, prio)
    }

    /// Returns whether a task waits for the mutex at this priority.
    fn has_waiter_at(&self, mutex: MutexNo, prio: Prio) -> bool
        ensures { result ≡ list_any (λ w. w.prio == prio) (queue_of self.now mutex) }
    {
        let mut found = false;
        for number in 1..self.tasks() + 1 {
            if let Some(waiter) = self.waiter_of(mutex, TaskNo(number)) {
                found = found || waiter.prio == prio;
            }
        }
        found
    }
}
