//! Notes of the priorities that tasks had.

ghost use Rattle.std.specs.Prelude.{◌≡◌, ◌≢◌, ◌≤◌, ◌↔◌, IsTrue, ℕ, None, IfOk, unwrap_or, length};
ghost use Rattle.pim_base.specs.declared.limits.TheConstants.{MAX_TASKS};
ghost use Rattle.pim_sets.specs.Numbers.{members};
ghost use Rattle.pim_sets.specs.Work.{noted_in, note_of};

use crate::number_set::{NumberSet, Numbers};
use crate::numbered::{filled, put};
use pim_base::{MAX_TASKS, Prio, TaskNo, nth};
use std::alloc::{AllocError, Global};
use std::marker::Model;

/// Which tasks are noted, how many, and the priority that each of them had. A task that has its first priority again
/// isn't noted any more.
#[derive(Debug, Drop)]
pub struct Notes {
    tasks: NumberSet,
    count: u16,
    // The level of each noted task. The other items have no meaning.
    had: Vec<u16>,
}

impl Model for Notes {
    ghost use Rattle.std.specs.Prelude.{◌≡◌, length};
    ghost use Rattle.pim_base.specs.declared.limits.TheConstants.{MAX_TASKS};
    ghost use Rattle.pim_sets.specs.Numbers.{members};
    ghost use Rattle.pim_sets.specs.Work.{Noted};

    ghost Value = { Noted };

    ghost view = { λ n. record { tasks = n.tasks.words; had = n.had.items } };

    ghost invariant = { λ n. (length n.had.items ≡ MAX_TASKS) × (n.count ≡ length (members n.tasks.words)) };
}

impl Notes {
    /// Makes room for a note of each task. No task is noted yet.
    pub fn new(alloc: Global) -> Result<Notes, AllocError>
        ensures { IfOk result (λ notes. (t : ℕ) → noted_in notes t ≡ None) }
    {
        Ok(Notes {
            tasks: NumberSet::new(),
            count: 0,
            had: filled(alloc, MAX_TASKS, 0)?,
        })
    }

    /// Forgets all notes. The cost doesn't depend on how many there are.
    pub fn clear(&mut self)
        ensures { (t : ℕ) → noted_in self.new t ≡ None }
    {
        // Most steps note nothing.
        if !self.tasks.is_empty() {
            self.tasks = NumberSet::new();
            self.count = 0;
        }
    }

    /// Notes that the task had this priority and has another one now, unless it is noted already. Forgets the note of a
    /// task that has the noted priority again.
    pub fn note(&mut self, task: TaskNo, had: Prio, prio: Prio)
        requires least { 1 ≤ task }
        requires most { task ≤ MAX_TASKS }
        requires other { had ≢ prio }
        ensures first { noted_in self.new task ≡ note_of (unwrap_or (noted_in self.old task) had) prio }
        ensures others { (u : ℕ) → u ≢ task → noted_in self.new u ≡ noted_in self.old u }
    {
        let number = task.get();
        if !self.tasks.contains(number) {
            self.tasks.insert(number);
            self.count += 1;
            put(&mut self.had, number, had.get());
        } else if nth(&self.had, number) == Some(prio.get()) {
            self.tasks.remove(number);
            self.count -= 1;
        }
    }

    /// Returns how many tasks are noted.
    pub fn count(&self) -> u16
        ensures { result ≡ length (members self.now.tasks) }
    {
        self.count
    }

    /// Returns whether no task is noted.
    pub fn is_empty(&self) -> bool
        ensures { IsTrue result ↔ ((t : ℕ) → noted_in self.now t ≡ None) }
    {
        self.tasks.is_empty()
    }

    /// Returns the noted tasks, in ascending order.
    pub fn tasks(&self) -> Numbers<'_>
        ensures { result ≡ members self.now.tasks }
    {
        self.tasks.iter()
    }
}
