//! The tasks whose priority a step changed.

ghost use Rattle.std.specs.Prelude.{◌≡◌};
ghost use Rattle.std.specs.Iterator.{YieldsFirst, item_count};
ghost use Rattle.std.specs.List.{AllByRecursion};
ghost use Rattle.pim_base.specs.State.{IsTask};
ghost use Rattle.pim_manager.specs.Changed.{listed};
ghost use Rattle.pim_sets.specs.Work.{noted_tasks};

use crate::manager::Manager;
use pim_base::{Prio, Reason, TaskNo};
use pim_chain::{Changed, Visits};
use std::marker::Model;

/// A task whose effective priority a step changed, as it is after the step.
#[derive(Clone, Copy, Debug, PartialEq, Eq)]
pub struct ChangedTask {
    /// The task.
    pub task: TaskNo,
    /// Its effective priority.
    pub prio: Prio,
    /// Why it has that.
    pub reason: Reason,
}

/// The tasks whose effective priority the last step changed, in ascending order.
///
/// Its value in contracts is the list of those that are left. For the reason of each it reads the mutexes that the task
/// owns.
#[derive(Drop)]
pub struct ChangedTasks<'a> {
    manager: &'a Manager,
    tasks: Changed<'a>,
}

impl<'a> Model for ChangedTasks<'a> {
    ghost use Rattle.std.specs.Prelude.{List};
    ghost use Rattle.std.specs.List.{AllByRecursion};
    ghost use Rattle.pim_base.specs.State.{IsTask};
    ghost use Rattle.pim_manager.specs.Changed.{listed};
    ghost use Rattle.pim_manager.specs.declared.changed_tasks.ChangedTask.{ChangedTask};

    ghost Value = { List ChangedTask };

    ghost view = { λ c. listed c.manager.now c.tasks };

    ghost invariant = { λ c. AllByRecursion (IsTask c.manager.now) c.tasks };
}

impl<'a> ChangedTasks<'a> {
    /// Returns the noted tasks, each as it is now.
    pub(crate) fn new(manager: &'a Manager, visits: &'a Visits) -> ChangedTasks<'a>
        requires { AllByRecursion (IsTask manager.now) (noted_tasks visits.now) }
        ensures { result ≡ listed manager.now (noted_tasks visits.now) }
    {
        ChangedTasks {
            manager,
            tasks: visits.noted(),
        }
    }
}

impl<'a> Iterator for ChangedTasks<'a> {
    type Item = ChangedTask;

    ghost next_gives = { YieldsFirst (λ rest. rest) };

    ghost remaining = { item_count (λ rest. rest) };

    fn next(&mut self) -> Option<ChangedTask> {
        let task = self.tasks.next()?;
        Some(self.manager.changed_task(task))
    }
}
