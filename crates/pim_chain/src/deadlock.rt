//! The deadlock test.

ghost use Rattle.std.specs.Prelude.{◌≡◌};
ghost use Rattle.pim_base.specs.Lists.{contains};
ghost use Rattle.pim_base.specs.State.{IsTask};
ghost use Rattle.pim_base.specs.Chains.{waits_chain};

use crate::tables::Tables;
use pim_base::TaskNo;

impl Tables {
    /// Returns whether the task is `from`, or is reached from it by hops to the owner of the mutex that a task waits
    /// for.
    ///
    /// Makes at most as many hops as there are tasks, through mutexes of any protocol.
    pub fn on_chain(&self, from: TaskNo, task: TaskNo) -> bool
        ensures { result ≡ contains (waits_chain self.now.state from) task }
    {
        // The contract of this call gives the proof the invariant of the tables.
        let _tasks = self.tasks();
        if task == from {
            return true;
        }
        if self.is_unknown_task(from) {
            return false;
        }
        self.known_on_chain(from, task)
    }

    /// Returns whether the task is on the chain of the known task `from`.
    ///
    /// Makes at most as many hops as there are tasks.
    #[tactic(auto, using(crate::proofs::Hopping::waits_chain_is))]
    #[inline(always)]
    pub fn known_on_chain(&self, from: TaskNo, task: TaskNo) -> bool
        requires { IsTask self.now.state from }
        ensures { result ≡ contains (waits_chain self.now.state from) task }
    {
        // The contract of this call gives the proof the invariant of the tables.
        let _tasks = self.tasks();
        if from == task {
            return true;
        }
        let mut waits = self.known_wait(from);
        while let Some(wait) = waits {
            match self.known_owner(wait.mutex) {
                Some(next) if next == task => return true,
                Some(next) => waits = self.known_wait(next),
                None => return false,
            }
        }
        false
    }
}
