//! The waits at objects that last.

ghost use Rattle.std.specs.Prelude.{◌≡◌, ◌+◌, ℕ, List, Some, IfOk};
ghost use Rattle.pim_fact_lines.specs.declared.line.Line.{Line};
ghost use Rattle.pim_world.specs.After.{after};
ghost use Rattle.pim_world.specs.Held.{world_of};
ghost use Rattle.pim_rows.specs.Moments.{Moment, now, number, followed_by};
ghost use Rattle.pim_rows.specs.Begun.{is_blocked};
ghost use Rattle.pim_rows.specs.Begun.{block};
ghost use Rattle.pim_rows.specs.Found.{actor};
ghost use Rattle.pim_rows.specs.Kept.{kept_of};
ghost use Rattle.pim_rows.specs.Kept.{AreStarts};

use crate::block::Block;
use crate::starts::Starts;
use pim_waits::ThreadPlace;
use pim_world::World;
use std::alloc::{AllocError, Global};

/// Of each thread that is blocked, how that began.
#[derive(Drop)]
pub(crate) struct Blocks {
    pub(crate) starts: Starts<Block>,
}

impl Blocks {
    /// Returns that no thread is blocked.
    pub(crate) fn new(alloc: Global) -> Blocks {
        Blocks {
            starts: Starts::new(alloc),
        }
    }

    /// Goes on by a line, the one with this number. Takes the world after it, its thread, and
    /// whether that was blocked before.
    pub(crate) fn follow(
        &mut self,
        world: &World,
        line: u64,
        thread: Option<ThreadPlace>,
        was: bool,
    ) -> Result<(), AllocError>
        ensures { IfOk result (λ _. (ms : List Moment) (l : Line)
            → world_of world.now ≡ after (now ms) l → line ≡ number ms + 1
            → thread ≡ actor (now ms) l → ((t : ℕ) → thread ≡ Some t → was ≡ is_blocked t (now ms))
            → AreStarts is_blocked block (kept_of self.old.starts) ms
            → AreStarts is_blocked block (kept_of self.new.starts) (followed_by ms l)) }
    {
        let Some(thread) = thread else {
            return Ok(());
        };
        if was {
            return Ok(());
        }
        if world.blocked(thread).is_none() {
            return Ok(());
        }
        self.starts.begin(thread.0, Block::of(world, thread, line))?;
        Ok(())
    }
}
