//! For how long threads have been off a CPU.

ghost use Rattle.std.specs.Prelude.{◌≡◌, ℕ, List, Some, IfOk, false};
ghost use Rattle.pim_fact_lines.specs.declared.line.Line.{Line};
ghost use Rattle.pim_fact_lines.specs.declared.line.Line.TheVariants as lines;
ghost use Rattle.pim_world.specs.After.{after, set};
ghost use Rattle.pim_world.specs.Held.{world_of};
ghost use Rattle.pim_rows.specs.Moments.{Moment, now, first_moments, followed_by};
ghost use Rattle.pim_world.specs.Standing.{is_off};
ghost use Rattle.pim_rows.specs.Begun.{off_time};
ghost use Rattle.pim_rows.specs.Found.{actor};
ghost use Rattle.pim_rows.specs.Kept.{kept_of};
ghost use Rattle.pim_rows.specs.OffTimes.{AreOffTimes, off_kept, is_lost};

use crate::off_time::OffTime;
use crate::starts::Starts;
use pim_waits::ThreadPlace;
use pim_world::World;
use std::alloc::{AllocError, Global};

/// Of each thread, for how long it has been off a CPU.
#[derive(Drop)]
pub(crate) struct OffTimes {
    pub(crate) starts: Starts<OffTime>,
}

impl OffTimes {
    /// Returns that no thread was ever off.
    pub(crate) fn new(alloc: Global) -> OffTimes
        ensures { AreOffTimes (kept_of result.starts) first_moments }
    {
        OffTimes {
            starts: Starts::new(alloc),
        }
    }

    /// Returns what is kept of a thread.
    fn get(&self, thread: ThreadPlace) -> OffTime
        ensures { result ≡ off_kept (kept_of self.now.starts) thread }
    {
        match self.starts.get(thread.0) {
            Some(kept) => kept,
            None => OffTime::none(),
        }
    }

    /// Returns for how long a thread has been off a CPU. Takes the world after the lines so far.
    pub(crate) fn so_far(&self, world: &World, thread: ThreadPlace) -> u64
        ensures { (ms : List Moment)
            → world_of world.now ≡ now ms → AreOffTimes (kept_of self.now.starts) ms
            → result ≡ off_time thread ms }
    {
        let kept = self.get(thread);
        if world.kernel().is_off(thread) {
            kept.until(world.clock())
        } else {
            kept.before()
        }
    }

    /// Goes on by a line that isn't `lost`. Takes the world after it, its thread, and whether that
    /// was off a CPU before.
    ///
    /// # Errors
    ///
    /// Returns `AllocError` if out of memory.
    pub(crate) fn follow(
        &mut self,
        world: &World,
        thread: Option<ThreadPlace>,
        was: bool,
    ) -> Result<(), AllocError>
        ensures { IfOk result (λ _. (ms : List Moment) (l : Line)
            → world_of world.now ≡ after (now ms) l → is_lost l ≡ false
            → thread ≡ actor (now ms) l → ((t : ℕ) → thread ≡ Some t → was ≡ is_off t (now ms))
            → AreOffTimes (kept_of self.old.starts) ms
            → AreOffTimes (kept_of self.new.starts) (followed_by ms l)) }
    {
        let Some(thread) = thread else {
            return Ok(());
        };
        let is = world.kernel().is_off(thread);
        if was {
            if is {
                return Ok(());
            }
            let ended = self.get(thread).ended(world.clock());
            self.starts.begin(thread.0, ended)?;
            return Ok(());
        }
        if is {
            let begun = self.get(thread).from(world.clock());
            self.starts.begin(thread.0, begun)?;
        }
        Ok(())
    }

    /// Goes on by a `lost` line, at this time. Takes the world before it.
    ///
    /// # Errors
    ///
    /// Returns `AllocError` if out of memory.
    pub(crate) fn lose(&mut self, before: &World, time: u64) -> Result<(), AllocError>
        ensures { IfOk result (λ _. (ms : List Moment)
            → world_of before.now ≡ now ms → AreOffTimes (kept_of self.old.starts) ms
            → AreOffTimes (kept_of self.new.starts) (followed_by ms (lines.Lost time))) }
    {
        let clock = before.clock().max(time);
        for i in 0..before.kernel().thread_count() {
            let thread = ThreadPlace(i + 1);
            if before.kernel().is_off(thread) {
                let ended = self.get(thread).ended(clock);
                self.starts.begin(thread.0, ended)?;
            }
        }
        Ok(())
    }
}
