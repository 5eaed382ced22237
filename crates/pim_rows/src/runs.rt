//! The threads that the kernel runs at another level than they get.

ghost use Rattle.std.specs.Prelude.{◌≡◌, ◌+◌, ◌++◌, ℕ, List, IfOk, map, flat_map};
ghost use Rattle.pim_fact_lines.specs.declared.line.Line.{Line};
ghost use Rattle.pim_world.specs.After.{after};
ghost use Rattle.pim_world.specs.Held.{world_of};
ghost use Rattle.pim_rows.specs.Moments.{Moment, first_moments, now, number, followed_by};
ghost use Rattle.pim_rows.specs.Begun.{are_levels};
ghost use Rattle.pim_rows.specs.Kept.{kept_of};
ghost use Rattle.pim_rows.specs.Rows.{ran_rows, ended_run, lasting_run, by_number, text_of};
ghost use Rattle.pim_rows.specs.Runs.{AreRuns, AreChanges, levels_of, ended_by, all_ended};
ghost use Rattle.pim_rows.specs.Runs.{with_begun, with_all, all_lasting};

use crate::row::Word;
use crate::rows_text::put_row;
use crate::run_start::RunStart;
use crate::starts::Starts;
use pim_waits::ThreadPlace;
use pim_world::World;
use std::alloc::{AllocError, Global};

/// The level at which the kernel ran a thread and what that got, if these were different, before a
/// line and after it.
#[derive(Clone, Copy)]
pub(crate) struct RunChange {
    /// The thread.
    pub(crate) thread: ThreadPlace,
    /// The two levels before the line.
    pub(crate) before: Option<(u64, u64)>,
    /// The two levels after it.
    pub(crate) now: Option<(u64, u64)>,
}

/// The level at which the kernel runs a thread and what that gets, if these are different.
#[derive(Clone, Copy)]
pub(crate) struct RunLevels {
    /// The thread.
    pub(crate) thread: ThreadPlace,
    /// The two levels.
    pub(crate) levels: Option<(u64, u64)>,
}

/// Of each thread that the kernel runs at another level than it gets, how that began.
#[derive(Drop)]
pub(crate) struct Runs {
    pub(crate) starts: Starts<RunStart>,
}

impl Runs {
    /// Returns that the kernel runs no thread at another level, as it is after line 1.
    pub(crate) fn new(alloc: Global) -> Runs
        ensures { AreRuns (kept_of result.starts) first_moments }
    {
        Runs {
            starts: Starts::new(alloc),
        }
    }

    /// Goes on by a line, the one with this number. Takes the world after it, and the threads of
    /// which the levels may have changed, in ascending order of their numbers. Appends the rows of
    /// what the line ended.
    ///
    /// # Errors
    ///
    /// Returns `AllocError` if out of memory.
    pub(crate) fn follow(
        &mut self,
        out: &mut Vec<u8>,
        world: &World,
        line: u64,
        changes: &[RunChange],
    ) -> Result<(), AllocError>
        ensures text { IfOk result (λ _. (ms : List Moment) (l : Line) (ts : List ℕ)
            → world_of world.now ≡ after (now ms) l → line ≡ number ms + 1
            → AreChanges (now ms) (after (now ms) l) ts changes.now
            → AreRuns (kept_of self.old.starts) ms
            → out.new.items ≡ out.old.items
            ++ text_of (flat_map (ended_run (followed_by ms l) ms) (by_number (now ms)))) }
        ensures kept { IfOk result (λ _. (ms : List Moment) (l : Line) (ts : List ℕ)
            → world_of world.now ≡ after (now ms) l → line ≡ number ms + 1
            → AreChanges (now ms) (after (now ms) l) ts changes.now
            → AreRuns (kept_of self.old.starts) ms
            → AreRuns (kept_of self.new.starts) (followed_by ms l)) }
    {
        self.put_all_ended(out, world.clock(), line, changes)?;
        self.begin_all(world, line, changes)?;
        Ok(())
    }

    /// Appends the rows of what changes ended, by the line of this number at this time.
    fn put_all_ended(
        &self,
        out: &mut Vec<u8>,
        time: u64,
        line: u64,
        changes: &[RunChange],
    ) -> Result<(), AllocError>
        ensures { IfOk result (λ _.
            out.new.items ≡ out.old.items
            ++ text_of (all_ended (kept_of self.now.starts) time line changes.now)) }
    {
        for change in changes {
            self.put_ended(out, time, line, change.thread, change.before, change.now)?;
        }
        Ok(())
    }

    /// Appends the row of what ended for a thread, by the line of this number at this time.
    fn put_ended(
        &self,
        out: &mut Vec<u8>,
        time: u64,
        line: u64,
        thread: ThreadPlace,
        before: Option<(u64, u64)>,
        now: Option<(u64, u64)>,
    ) -> Result<(), AllocError>
        ensures { IfOk result (λ _.
            out.new.items ≡ out.old.items
            ++ text_of (ended_by (kept_of self.now.starts thread) time line before now)) }
    {
        let Some(both) = before else {
            return Ok(());
        };
        if are_levels(both, now) {
            return Ok(());
        }
        match self.starts.get(thread.0) {
            Some(start) => put_ran(out, start, time, line),
            None => Ok(()),
        }
    }

    /// Keeps what changes began, by the line of this number, after which the world is this.
    fn begin_all(
        &mut self,
        world: &World,
        line: u64,
        changes: &[RunChange],
    ) -> Result<(), AllocError>
        ensures { IfOk result (λ _.
            kept_of self.new.starts
            ≡ with_all (world_of world.now) line (kept_of self.old.starts) changes.now) }
    {
        for change in changes {
            self.begin(world, line, change.thread, change.before, change.now)?;
        }
        Ok(())
    }

    /// Keeps what began for a thread, by the line of this number, after which the world is this.
    fn begin(
        &mut self,
        world: &World,
        line: u64,
        thread: ThreadPlace,
        before: Option<(u64, u64)>,
        now: Option<(u64, u64)>,
    ) -> Result<(), AllocError>
        ensures { IfOk result (λ _.
            kept_of self.new.starts ≡ with_begun
            (world_of world.now) line (kept_of self.old.starts) thread before now) }
    {
        let Some(both) = now else {
            return Ok(());
        };
        if are_levels(both, before) {
            return Ok(());
        }
        self.starts
            .begin(thread.0, RunStart::of(world, thread, line, both))?;
        Ok(())
    }

    /// Appends the rows of what lasts. Takes the levels of all threads, in ascending order of their
    /// numbers.
    ///
    /// # Errors
    ///
    /// Returns `AllocError` if out of memory.
    pub(crate) fn put_lasting(
        &self,
        out: &mut Vec<u8>,
        world: &World,
        threads: &[RunLevels],
    ) -> Result<(), AllocError>
        ensures { IfOk result (λ _. (ms : List Moment) → world_of world.now ≡ now ms
            → threads.now ≡ map (levels_of (now ms)) (by_number (now ms))
            → AreRuns (kept_of self.now.starts) ms
            → out.new.items
            ≡ out.old.items ++ text_of (flat_map (lasting_run ms) (by_number (now ms)))) }
    {
        self.put_all_lasting(out, world.clock(), threads)?;
        Ok(())
    }

    /// Appends the rows of what lasts until this time.
    fn put_all_lasting(
        &self,
        out: &mut Vec<u8>,
        time: u64,
        threads: &[RunLevels],
    ) -> Result<(), AllocError>
        ensures { IfOk result (λ _.
            out.new.items ≡ out.old.items
            ++ text_of (all_lasting (kept_of self.now.starts) time threads.now)) }
    {
        for one in threads {
            self.put_ended(out, time, 0, one.thread, one.levels, None)?;
        }
        Ok(())
    }
}

/// Returns whether the levels are these two.
fn are_levels(both: (u64, u64), levels: Option<(u64, u64)>) -> bool
    ensures { result ≡ are_levels both levels }
{
    match levels {
        Some(now) => now.0 == both.0 && now.1 == both.1,
        None => false,
    }
}

/// Appends the row of what began so and lasts until a line at this time, if it took more than no
/// time.
fn put_ran(out: &mut Vec<u8>, start: RunStart, time: u64, until: u64) -> Result<(), AllocError>
    ensures { IfOk result
        (λ _. out.new.items ≡ out.old.items ++ text_of (ran_rows start time until)) }
{
    if start.from < time {
        put_row(out, Word::Ran, &start.numbers(time, until))?;
    }
    Ok(())
}
