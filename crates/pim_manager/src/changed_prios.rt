//! The priorities that a step changed.

ghost use Rattle.std.specs.Prelude.{◌≡◌, map};
ghost use Rattle.std.specs.Iterator.{YieldsFirst, item_count};
ghost use Rattle.std.specs.List.{AllByRecursion};
ghost use Rattle.pim_base.specs.State.{IsTask};
ghost use Rattle.pim_manager.specs.Changed.{changed_prio, listed};
ghost use Rattle.pim_sets.specs.Work.{noted_tasks};

use crate::manager::Manager;
use pim_base::{Prio, TaskNo};
use pim_chain::Visits;
use pim_sets::Changed;
use std::marker::Model;

/// A task whose effective priority a step changed, with its priority after the step.
#[derive(Clone, Copy, Debug, PartialEq, Eq)]
pub struct ChangedPrio {
    /// The task.
    pub task: TaskNo,
    /// Its effective priority.
    pub prio: Prio,
}

/// The tasks whose effective priority the last step changed, in ascending order, without the reasons.
///
/// Its value in contracts is the list of those that are left. For each it reads one stored priority.
#[derive(Drop)]
pub struct ChangedPrios<'a> {
    manager: &'a Manager,
    tasks: Changed<'a>,
}

impl<'a> Model for ChangedPrios<'a> {
    ghost use Rattle.std.specs.Prelude.{List, map};
    ghost use Rattle.std.specs.List.{AllByRecursion};
    ghost use Rattle.pim_base.specs.State.{IsTask};
    ghost use Rattle.pim_manager.specs.Changed.{changed_prio, listed};
    ghost use Rattle.pim_manager.specs.declared.changed_prios.ChangedPrio.{ChangedPrio};

    ghost Value = { List ChangedPrio };

    ghost view = { λ c. map changed_prio (listed c.manager.now c.tasks) };

    ghost invariant = { λ c. AllByRecursion (IsTask c.manager.now) c.tasks };
}

impl<'a> ChangedPrios<'a> {
    /// Returns the noted tasks with their effective priorities.
    pub(crate) fn new(manager: &'a Manager, visits: &'a Visits) -> ChangedPrios<'a>
        requires { AllByRecursion (IsTask manager.now) (noted_tasks visits.now) }
        ensures { result ≡ map changed_prio (listed manager.now (noted_tasks visits.now)) }
    {
        ChangedPrios {
            manager,
            tasks: visits.noted(),
        }
    }
}

impl<'a> Iterator for ChangedPrios<'a> {
    type Item = ChangedPrio;

    ghost next_gives = { YieldsFirst (λ rest. rest) };

    ghost remaining = { item_count (λ rest. rest) };

    fn next(&mut self) -> Option<ChangedPrio> {
        let task = self.tasks.next()?;
        Some(self.manager.changed_prio(task))
    }
}
