//! How the waits for mutexes that last began.

ghost use Rattle.std.specs.Prelude.{◌≡◌, ◌+◌, ℕ, List, Some, IfOk};
ghost use Rattle.pim_fact_lines.specs.declared.line.Line.{Line};
ghost use Rattle.pim_waits.specs.Waiting.{gets};
ghost use Rattle.pim_world.specs.After.{after};
ghost use Rattle.pim_world.specs.Held.{world_of};
ghost use Rattle.pim_rows.specs.Moments.{Moment, now, number, followed_by};
ghost use Rattle.pim_world.specs.Standing.{waits};
ghost use Rattle.pim_rows.specs.Begun.{is_owned};
ghost use Rattle.pim_rows.specs.Begun.{grant, wait_start};
ghost use Rattle.pim_rows.specs.Found.{actor};
ghost use Rattle.pim_rows.specs.Kept.{kept_of};
ghost use Rattle.pim_rows.specs.Kept.{AreStarts};

use crate::grants::Grants;
use crate::starts::Starts;
use crate::wait_start::WaitStart;
use pim_waits::ThreadPlace;
use pim_world::World;
use std::alloc::{AllocError, Global};

/// Of each thread that waits for a mutex, how that began.
#[derive(Drop)]
pub(crate) struct WaitStarts {
    pub(crate) starts: Starts<WaitStart>,
}

impl WaitStarts {
    /// Returns that no thread waits.
    pub(crate) fn new(alloc: Global) -> WaitStarts {
        WaitStarts {
            starts: Starts::new(alloc),
        }
    }

    /// Goes on by a line, the one with this number. Takes the world after it, its thread, whether
    /// that waited before, what it gets now, and how ownerships began.
    pub(crate) fn follow(
        &mut self,
        world: &World,
        line: u64,
        thread: Option<ThreadPlace>,
        was: bool,
        got: u64,
        grants: &Grants,
    ) -> Result<(), AllocError>
        ensures { IfOk result (λ _. (ms : List Moment) (l : Line)
            → world_of world.now ≡ after (now ms) l → line ≡ number ms + 1
            → thread ≡ actor (now ms) l → ((t : ℕ) → thread ≡ Some t → was ≡ waits t (now ms))
            → ((t : ℕ) → thread ≡ Some t → got ≡ gets (after (now ms) l).state t)
            → AreStarts is_owned grant (kept_of grants.now.starts) (followed_by ms l)
            → AreStarts waits wait_start (kept_of self.old.starts) ms
            → AreStarts waits wait_start (kept_of self.new.starts) (followed_by ms l)) }
    {
        let Some(thread) = thread else {
            return Ok(());
        };
        if was {
            return Ok(());
        }
        let Some(mutex) = world.waits().awaited(thread) else {
            return Ok(());
        };
        let grant = grants.line_of(world, mutex);
        self.starts.begin(
            thread.0,
            WaitStart::of(world, thread, mutex, line, got, grant),
        )?;
        Ok(())
    }
}
