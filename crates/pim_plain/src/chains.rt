//! The chains from a task: whom it waits for, and who inherits from it.

ghost use Rattle.std.specs.Prelude.{◌≡◌, ℕ, Option, length};
ghost use Rattle.pim_base.specs.Lists.{contains};
ghost use Rattle.pim_base.specs.Chains.{chain, blocker, heir, waits_chain, inherit_chain, leads_back, closes_cycle};

use crate::plain_manager::PlainManager;
use pim_base::{MutexNo, TaskNo};

impl PlainManager {
    /// Returns the task that this one waits for: the owner of its mutex.
    pub fn blocker(&self, task: TaskNo) -> Option<TaskNo>
        ensures { result ≡ blocker self.now task }
    {
        self.owner_of(self.wait_of(task)?.mutex)
    }

    /// Returns the task that inherits from this one: the owner of the INHERIT mutex that it waits for.
    pub fn heir(&self, task: TaskNo) -> Option<TaskNo>
        ensures { result ≡ heir self.now task }
    {
        let wait = self.wait_of(task)?;
        if self.protocol(wait.mutex)?.is_inherit() {
            self.owner_of(wait.mutex)
        } else {
            None
        }
    }

    /// Returns whether the task is `from`, or is reached from it by hops through mutexes of any protocol.
    pub fn on_chain(&self, from: TaskNo, task: TaskNo) -> bool
        ensures { result ≡ contains (waits_chain self.now from) task }
    {
        self.has_on_chain(|at| self.blocker(at), from, task)
    }

    /// Returns whether the task is `from`, or is reached from it by hops through INHERIT mutexes alone: whether it
    /// inherits from `from`.
    pub fn on_inherit_chain(&self, from: TaskNo, task: TaskNo) -> bool
        ensures { result ≡ contains (inherit_chain self.now from) task }
    {
        self.has_on_chain(|at| self.heir(at), from, task)
    }

    /// Returns whether a wait of the task for the mutex would lead back to the task.
    pub fn leads_back(&self, task: TaskNo, mutex: MutexNo) -> bool
        ensures { result ≡ leads_back self.now task mutex }
    {
        self.owner_of(mutex)
            .is_some_and(|owner| self.on_chain(owner, task))
    }

    /// Returns whether the request of the task for the mutex would close a cycle of waits.
    pub fn closes_cycle(&self, task: TaskNo, mutex: MutexNo) -> bool
        ensures { result ≡ closes_cycle self.now task mutex }
    {
        !self.relocks(task, mutex) && self.leads_back(task, mutex)
    }

    /// Returns whether the task is `from`, or is reached from it by the hops that `hop` answers as `h` does.
    fn has_on_chain<F: Fn(TaskNo) -> Option<TaskNo>>(
        &self,
        hop: F,
        from: TaskNo,
        task: TaskNo,
    ) -> bool
        requires { F.IsAlwaysCallable hop }
        ensures { (h : ℕ → Option ℕ) → ((t : ℕ) (o : Option ℕ) → F.post hop t o → o ≡ h t) → result ≡ contains (chain h (length self.now.base) from) task }
    {
        let mut at = from;
        // No chain without a cycle is longer, and a loop has to end.
        for _hop in 0..self.tasks() {
            if task == at {
                return true;
            }
            match hop(at) {
                Some(next) => at = next,
                None => return false,
            }
        }
        task == at
    }
}
