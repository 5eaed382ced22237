//! The levels at which threads run, as they were after the last line.

ghost use Rattle.std.specs.Prelude.{◌≡◌, ℕ, List, Some, None, IfOk, map, unwrap_or};
ghost use Rattle.pim_world.specs.After.{set};
ghost use Rattle.pim_world.specs.Held.{world_of};
ghost use Rattle.pim_world.specs.Worlds as worlds;
ghost use Rattle.pim_rows.specs.Kept.{kept_of};
ghost use Rattle.pim_rows.specs.Levels.{AreLevels, with_levels};
ghost use Rattle.pim_rows.specs.Runs.{change_of};

use crate::run_changes::run_apart;
use crate::runs::RunChange;
use crate::starts::Starts;
use pim_waits::ThreadPlace;
use pim_world::World;
use std::alloc::{AllocError, Global};

/// Of each thread at which level the kernel runs it and what it gets, if these are different.
#[derive(Drop)]
pub(crate) struct Levels {
    pub(crate) apart: Starts<Option<(u64, u64)>>,
}

impl Levels {
    /// Returns that the kernel runs no thread at another level.
    pub(crate) fn new(alloc: Global) -> Levels
        ensures { (t : ℕ) → kept_of result.apart t ≡ None }
    {
        Levels {
            apart: Starts::new(alloc),
        }
    }

    /// Returns how the levels of threads changed. Takes the world after a line.
    ///
    /// # Errors
    ///
    /// Returns `AllocError` if out of memory.
    pub(crate) fn changes(
        &self,
        alloc: Global,
        world: &World,
        threads: &[ThreadPlace],
    ) -> Result<Vec<RunChange>, AllocError>
        ensures { IfOk result (λ changes. (w : worlds.World) → AreLevels (kept_of self.now.apart) w
            → changes.items ≡ map (change_of w (world_of world.now)) threads.now) }
    {
        let mut changes = Vec::new(alloc);
        for thread in threads {
            let change = RunChange {
                thread: *thread,
                before: self.of(*thread),
                now: run_apart(world, *thread),
            };
            let Ok(()) = changes.push(change) else {
                return Err(AllocError);
            };
        }
        Ok(changes)
    }

    /// Returns the two levels of a thread, if they were different.
    fn of(&self, thread: ThreadPlace) -> Option<(u64, u64)>
        ensures { result ≡ unwrap_or (kept_of self.now.apart thread) None }
    {
        match self.apart.get(thread.0) {
            Some(levels) => levels,
            None => None,
        }
    }

    /// Keeps what changes say.
    ///
    /// # Errors
    ///
    /// Returns `AllocError` if out of memory.
    pub(crate) fn follow(&mut self, changes: &[RunChange]) -> Result<(), AllocError>
        ensures { IfOk result
            (λ _. kept_of self.new.apart ≡ with_levels (kept_of self.old.apart) changes.now) }
    {
        for change in changes {
            self.keep(change.thread, change.now)?;
        }
        Ok(())
    }

    /// Keeps the levels of a thread.
    fn keep(&mut self, thread: ThreadPlace, levels: Option<(u64, u64)>) -> Result<(), AllocError>
        ensures { IfOk result
            (λ _. kept_of self.new.apart ≡ set thread (Some levels) (kept_of self.old.apart)) }
    {
        self.apart.begin(thread.0, levels)?;
        Ok(())
    }
}
