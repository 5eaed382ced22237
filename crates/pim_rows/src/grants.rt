//! The ownerships that last.

ghost use Rattle.std.specs.Prelude.{◌≡◌, ◌+◌, ℕ, List, Some, IfOk};
ghost use Rattle.std.specs.Option.{option_map_or};
ghost use Rattle.pim_base.specs.State.{owner_of};
ghost use Rattle.pim_fact_lines.specs.declared.line.Line.{Line};
ghost use Rattle.pim_world.specs.After.{after};
ghost use Rattle.pim_world.specs.Held.{world_of};
ghost use Rattle.pim_rows.specs.Moments.{Moment, now, number, followed_by};
ghost use Rattle.pim_rows.specs.Begun.{is_owned, grant_line, off_time};
ghost use Rattle.pim_rows.specs.Begun.{grant, owner_or_none};
ghost use Rattle.pim_rows.specs.Found.{mutex_of};
ghost use Rattle.pim_rows.specs.Kept.{kept_of};
ghost use Rattle.pim_rows.specs.Kept.{AreStarts};

use crate::grant::Grant;
use crate::starts::Starts;
use pim_waits::MutexPlace;
use pim_world::World;
use std::alloc::{AllocError, Global};

/// Of each mutex that is owned, how that began.
#[derive(Drop)]
pub(crate) struct Grants {
    pub(crate) starts: Starts<Grant>,
}

impl Grants {
    /// Returns that no mutex is owned.
    pub(crate) fn new(alloc: Global) -> Grants {
        Grants {
            starts: Starts::new(alloc),
        }
    }

    /// Goes on by a line, the one with this number. Takes the world after it, the mutex that it
    /// locked or released, whether that was owned before,
    /// and for how long its owner has been off a CPU.
    pub(crate) fn follow(
        &mut self,
        world: &World,
        line: u64,
        mutex: Option<MutexPlace>,
        was: bool,
        off: u64,
    ) -> Result<(), AllocError>
        ensures { IfOk result (λ _. (ms : List Moment) (l : Line)
            → world_of world.now ≡ after (now ms) l → line ≡ number ms + 1
            → mutex ≡ mutex_of (now ms) l → ((m : ℕ) → mutex ≡ Some m → was ≡ is_owned m (now ms))
            → ((m : ℕ) → mutex ≡ Some m
            → off ≡ off_time (owner_or_none (after (now ms) l) m) (followed_by ms l))
            → AreStarts is_owned grant (kept_of self.old.starts) ms
            → AreStarts is_owned grant (kept_of self.new.starts) (followed_by ms l)) }
    {
        let Some(mutex) = mutex else {
            return Ok(());
        };
        if was {
            return Ok(());
        }
        if world.waits().owner(mutex).is_none() {
            return Ok(());
        }
        self.starts
            .begin(mutex.0, Grant::of(world, mutex, line, off))?;
        Ok(())
    }

    /// Returns the line by which the owner of a mutex came to own it, or 0 if it is free.
    pub(crate) fn line_of(&self, world: &World, mutex: MutexPlace) -> u64
        ensures { (ms : List Moment)
            → world_of world.now ≡ now ms → AreStarts is_owned grant (kept_of self.now.starts) ms
            → result ≡ option_map_or (λ o. grant_line mutex ms) (owner_of (now ms).state mutex) 0 }
    {
        if world.waits().owner(mutex).is_none() {
            return 0;
        }
        match self.starts.get(mutex.0) {
            Some(grant) => grant.line,
            None => 0,
        }
    }
}
