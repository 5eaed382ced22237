//! The sets of the mutexes that each task owns.

ghost use Rattle.std.specs.Prelude.{◌≡◌, ◌≢◌, ◌≤◌, ◌<◌, ◌==◌, ◌&&◌, ◌||◌, ℕ, not, false, length, IfOk};
ghost use Rattle.pim_sets.specs.Numbers.{has};
ghost use Rattle.pim_sets.specs.Sets.{words_in, AreEmpty};

use crate::number_set::NumberSet;
use crate::numbered::filled;
use pim_base::{MutexNo, TaskNo};
use std::alloc::{AllocError, Global};
use std::marker::Model;

/// The set of the mutexes that each task owns.
#[derive(Drop)]
pub struct OwnedSets {
    sets: Vec<NumberSet>,
}

impl Model for OwnedSets {
    ghost use Rattle.std.specs.Prelude.{List};
    ghost use Rattle.pim_sets.specs.declared.number_set.NumberSet.{NumberSet};

    ghost Value = { List NumberSet };

    ghost view = { λ s. s.sets.items };
}

impl OwnedSets {
    /// Makes an empty set for each of this many tasks.
    ///
    /// # Errors
    ///
    /// Returns `AllocError` if out of memory.
    pub fn new(alloc: Global, tasks: usize) -> Result<OwnedSets, AllocError>
        ensures { IfOk result (AreEmpty tasks) }
    {
        let sets = filled(alloc, tasks, NumberSet::new())?;
        Ok(OwnedSets { sets })
    }

    /// Makes equal sets.
    ///
    /// # Errors
    ///
    /// Returns `AllocError` if out of memory.
    pub fn try_clone(&self, alloc: Global) -> Result<OwnedSets, AllocError>
        ensures { IfOk result (λ sets. sets ≡ self.now) }
    {
        let sets = Vec::from_slice(alloc, &self.sets)?;
        Ok(OwnedSets { sets })
    }

    /// Returns the task's set.
    pub fn of(&self, task: TaskNo) -> &NumberSet
        requires least { 1 ≤ task }
        requires most { task ≤ length self.now }
        ensures { result.now.words ≡ words_in self.now task }
    {
        &self.sets[task.get() as usize - 1]
    }

    /// Puts the mutex in the task's set.
    #[inline(always)]
    pub fn insert(&mut self, task: TaskNo, mutex: MutexNo)
        requires least { 1 ≤ task }
        requires most { task ≤ length self.old }
        requires small { mutex < 320 }
        ensures len { length self.new ≡ length self.old }
        ensures inserted { (k : ℕ) → has (words_in self.new task) k ≡ (k == mutex || has (words_in self.old task) k) }
        ensures others { (t : ℕ) → t ≢ task → words_in self.new t ≡ words_in self.old t }
    {
        self.sets[task.get() as usize - 1].insert(mutex.get());
    }

    /// Takes the mutex out of the task's set.
    #[inline(always)]
    pub fn remove(&mut self, task: TaskNo, mutex: MutexNo)
        requires least { 1 ≤ task }
        requires most { task ≤ length self.old }
        requires small { mutex < 320 }
        ensures len { length self.new ≡ length self.old }
        ensures removed { (k : ℕ) → has (words_in self.new task) k ≡ (not (k == mutex) && has (words_in self.old task) k) }
        ensures others { (t : ℕ) → t ≢ task → words_in self.new t ≡ words_in self.old t }
    {
        self.sets[task.get() as usize - 1].remove(mutex.get());
    }
}
