//! The priorities at which tasks execute.

ghost use Rattle.std.specs.Prelude.{◌≡◌, IsTrue};
ghost use Rattle.pim_base.specs.State.{IsTask};
ghost use Rattle.pim_base.specs.Checks.{unknown_task};
ghost use Rattle.pim_base.specs.Priorities.{own_priority, effective_priority};

use crate::plain_manager::PlainManager;
use pim_base::{MutexNo, Prio, TaskNo, higher};

impl PlainManager {
    /// Returns the effective priority of a task; `None` for an unknown one.
    pub fn effective(&self, task: TaskNo) -> Option<Prio>
        ensures unknown { IsTrue (unknown_task self.now task) → result ≡ None }
        ensures known { IsTask self.now task → result ≡ Some (effective_priority self.now task) }
    {
        if self.is_unknown_task(task) {
            None
        } else {
            Some(self.effective_priority(task))
        }
    }

    /// Returns the greatest of a known task's base and the ceilings of the PROTECT mutexes that it owns.
    pub(crate) fn own_priority(&self, task: TaskNo) -> Prio
        requires { IsTask self.now task }
        ensures { result ≡ own_priority self.now task }
    {
        let mut prio = self.base_of(task);
        for number in 1..self.mutexes() + 1 {
            let mutex = MutexNo(number);
            if self.owns(task, mutex) {
                if let Some(ceiling) = self.ceiling(mutex) {
                    prio = higher(prio, ceiling);
                }
            }
        }
        prio
    }

    /// Returns the greatest own priority among the donors of a known task, which is one of them.
    pub(crate) fn effective_priority(&self, task: TaskNo) -> Prio
        requires { IsTask self.now task }
        ensures { result ≡ effective_priority self.now task }
    {
        let mut prio = self.own_priority(task);
        for number in 1..self.tasks() + 1 {
            let donor = TaskNo(number);
            if self.on_inherit_chain(donor, task) {
                prio = higher(prio, self.own_priority(donor));
            }
        }
        prio
    }
}
