//! What the rows need of the lines so far.

ghost use Rattle.std.specs.Prelude.{◌≡◌, ◌==◌, ◌+◌, ℕ, List, Some, None, IfOk, IsTrue, MatchOption};
ghost use Rattle.pim_waits.specs.Waiting.{gets};
ghost use Rattle.pim_world.specs.Held.{world_of};
ghost use Rattle.pim_fact_lines.specs.declared.line.Line.{Line};
ghost use Rattle.pim_world.specs.Following.{may_follow};
ghost use Rattle.pim_rows.specs.Moments.{Moment, now, first_moments, followed_by};
ghost use Rattle.pim_rows.specs.Rows.{rows_of, status_of, text_of};
ghost use Rattle.pim_rows.specs.Begun.{off_time};
ghost use Rattle.pim_rows.specs.Begun.{owner_or_none};
ghost use Rattle.pim_rows.specs.Kept.{kept_of};
ghost use Rattle.pim_rows.specs.OffTimes.{AreOffTimes};
ghost use Rattle.pim_world.specs.Texts.{line_after};
ghost use Rattle.pim_rows.specs.Tracking.{Tracks, HasTaken};

use crate::affected::put_affected;
use crate::before::Before;
use crate::blocks::Blocks;
use crate::deadlocks::{by_number, put_deadlocks};
use crate::ended_rows::put_ended;
use crate::going::go;
use crate::grants::Grants;
use crate::lasting::{put_lasting_blocks, put_lasting_waits};
use crate::levels::Levels;
use crate::lines::{actor, asked_mutex, locked_mutex};
use crate::nest_table::{Nests, put_nests as put_nest_rows};
use crate::nesting::put_nests;
use crate::off_times::OffTimes;
use crate::open_waits::OpenWaits;
use crate::row::Word;
use crate::row_table::RowTable;
use crate::rows_text::put_row;
use crate::run_changes::{changed, levels_of_all, may_run, moved};
use crate::runs::{RunLevels, Runs};
use crate::section_table::{Sections, put_sections};
use crate::sections::{end_section, put_lasting_sections};
use crate::wait_starts::WaitStarts;
use pim_fact_lines::Line;
use pim_waits::{MutexPlace, ThreadPlace};
use pim_world::{Why, World};
use std::alloc::{AllocError, Global};
use std::mem;

/// What the rows need of the lines so far.
pub(crate) struct Tracker {
    world: World,
    /// The number of the newest line.
    number: u64,
    starts: WaitStarts,
    opens: OpenWaits,
    /// The threads that the newest line affected. It is kept for its memory.
    affected: Vec<ThreadPlace>,
    blocks: Blocks,
    grants: Grants,
    off_times: OffTimes,
    levels: Levels,
    runs: Runs,
    sections: RowTable<Sections>,
    nests: RowTable<Nests>,
    /// The rows of what ended.
    out: Vec<u8>,
    /// How many of them are of waits, and how many of those were inverted.
    waits: u64,
    inverted: u64,
}

// Each place that drops it calls this one function, where a derived drop would be a call for each
// part there.
impl Drop for Tracker {
    fn drop(self) {
        let Tracker {
            world: _,
            number: _,
            starts: _,
            opens: _,
            affected: _,
            blocks: _,
            grants: _,
            off_times: _,
            levels: _,
            runs: _,
            sections: _,
            nests: _,
            out: _,
            waits: _,
            inverted: _,
        } = self;
    }
}

impl Tracker {
    /// Returns the tracker after line 1.
    pub(crate) fn new(alloc: Global) -> Tracker
        ensures { Tracks result first_moments }
    {
        Tracker {
            world: World::new(alloc),
            number: 1,
            starts: WaitStarts::new(alloc),
            opens: OpenWaits::new(alloc),
            blocks: Blocks::new(alloc),
            grants: Grants::new(alloc),
            off_times: OffTimes::new(alloc),
            levels: Levels::new(alloc),
            runs: Runs::new(alloc),
            sections: RowTable::new(alloc),
            nests: RowTable::new(alloc),
            out: Vec::new(alloc),
            affected: Vec::new(alloc),
            waits: 0,
            inverted: 0,
        }
    }

    /// Goes on by the line that bytes spell. Returns why it is invalid, or `None` if it is valid.
    ///
    /// # Errors
    ///
    /// Returns `AllocError` if out of memory.
    pub(crate) fn take(&mut self, alloc: Global, bytes: &[u8]) -> Result<Option<Why>, AllocError>
        requires { (ms : List Moment) × Tracks self.old ms }
        ensures { IfOk result (λ why. (ms : List Moment) → Tracks self.old ms
            → MatchOption why (HasTaken self.new ms bytes.now)
            (λ _. line_after (now ms) bytes.now ≡ None)) }
    {
        let line = match self.world.read(bytes) {
            Ok(line) => line,
            Err(why) => return Ok(Some(why)),
        };
        self.step(alloc, &line)?;
        Ok(None)
    }

    /// Goes on by a line that may follow.
    ///
    /// # Errors
    ///
    /// Returns `AllocError` if out of memory.
    fn step(&mut self, alloc: Global, line: &Line) -> Result<(), AllocError>
        requires { (ms : List Moment) × Tracks self.old ms }
        ensures { (ms : List Moment) → Tracks self.old ms → IsTrue (may_follow (now ms) line.now)
            → IfOk result (λ _. Tracks self.new (followed_by ms line.now)) }
    {
        let n = more(self.number, 1)?;
        let thread = &actor(&self.world, line);
        let mutex = &locked_mutex(&self.world, line);
        let was = Before::of(&self.world, thread, mutex);
        let is_run = may_run(&self.world, line);
        let all = moved(alloc, &self.world, line, is_run)?;
        let asked = asked_mutex(&self.world, line);
        put_nests(
            &mut self.nests,
            &self.world,
            *thread,
            asked,
            n,
            &self.grants,
        )?;
        go(
            &mut self.world,
            &mut self.off_times,
            alloc,
            line,
            *thread,
            was.off,
        )?;
        self.number = n;

        let (world, out) = (&self.world, &mut self.out);
        put_affected(&mut self.affected, world, line, &self.opens)?;
        let times = self
            .opens
            .follow(alloc, world, *thread, was.waits, &self.affected)?;
        let ended = put_ended(
            out,
            world,
            line,
            n,
            *thread,
            &times,
            &self.starts,
            &self.blocks,
        )?;
        self.waits = more(self.waits, ended.waits)?;
        self.inverted = more(self.inverted, ended.inverted)?;
        let threads = changed(alloc, world, line, *thread, is_run, all)?;
        let changes = self.levels.changes(alloc, world, &threads)?;
        self.runs.follow(out, world, n, &changes)?;
        self.levels.follow(&changes)?;
        end_section(
            &mut self.sections,
            world,
            *mutex,
            was.owned,
            &self.grants,
            &self.off_times,
        )?;

        let off = off_of_owner(&self.off_times, world, *mutex);
        self.grants.follow(world, n, *mutex, was.owned, off)?;
        self.blocks.follow(world, n, *thread, was.blocked)?;
        let got = got_by(world, *thread);
        self.starts
            .follow(world, n, *thread, was.waits, got, &self.grants)?;
        Ok(())
    }

    /// Returns the bytes of the rows, and whether the status is 1.
    ///
    /// # Errors
    ///
    /// Returns `AllocError` if out of memory.
    pub(crate) fn finish(self, alloc: Global) -> Result<(Vec<u8>, bool), AllocError>
        requires { (ms : List Moment) × Tracks self ms }
        ensures { (ms : List Moment) → Tracks self ms
            → IfOk result (λ r. (r.0.items ≡ text_of (rows_of ms)) × (r.1 ≡ (status_of ms == 1))) }
    {
        let mut this = self;
        let is_bad = this.put_rest(alloc)?;
        let out = mem::replace(&mut this.out, Vec::new(alloc));
        Ok((out, is_bad))
    }

    /// Writes the rows of what lasts, and all that comes after them. Returns whether the status is
    /// 1.
    fn put_rest(&mut self, alloc: Global) -> Result<bool, AllocError>
        requires { (ms : List Moment) × Tracks self.old ms }
        ensures { (ms : List Moment) → Tracks self.old ms
            → IfOk result (λ is_bad.
            (self.new.out.items ≡ text_of (rows_of ms)) × (is_bad ≡ (status_of ms == 1))) }
    {
        let (world, out) = (&self.world, &mut self.out);
        let places = by_number(alloc, world)?;
        let lasting = put_lasting_waits(out, world, &self.starts, &mut self.opens, &places)?;
        put_lasting_blocks(out, world, &self.blocks, &places)?;
        let levels = levels_of_all(alloc, world)?;
        self.runs.put_lasting(out, world, &levels)?;
        put_lasting_sections(&mut self.sections, world, &self.grants, &self.off_times)?;
        put_sections(out, &self.sections)?;
        put_nest_rows(out, &self.nests)?;
        let deadlocks = put_deadlocks(out, alloc, world)?;
        let waits = more(self.waits, lasting.0)?;
        let inverted = more(self.inverted, lasting.1)?;
        put_row(
            out,
            Word::End,
            &[self.number, world.clock(), waits, inverted, deadlocks],
        )?;
        Ok(inverted > 0 || deadlocks > 0)
    }
}

/// Returns the sum of two numbers.
///
/// # Errors
///
/// Returns `AllocError` if it is 2^64 or more.
fn more(number: u64, by: u64) -> Result<u64, AllocError>
    ensures { IfOk result (λ sum. sum ≡ number + by) }
{
    match number.checked_add(by) {
        Some(sum) => Ok(sum),
        None => Err(AllocError),
    }
}

/// Returns for how long the owner of a mutex has been off a CPU.
fn off_of_owner(off_times: &OffTimes, world: &World, mutex: Option<MutexPlace>) -> u64
    ensures { (ms : List Moment) (m : ℕ) → mutex ≡ Some m → world_of world.now ≡ now ms
        → AreOffTimes (kept_of off_times.now.starts) ms
        → result ≡ off_time (owner_or_none (now ms) m) ms }
{
    let Some(mutex) = mutex else {
        return 0;
    };
    match world.waits().owner(mutex) {
        Some(owner) => off_times.so_far(world, owner),
        None => off_times.so_far(world, ThreadPlace(0)),
    }
}

/// Returns what a thread gets.
fn got_by(world: &World, thread: Option<ThreadPlace>) -> u64
    ensures { (t : ℕ) → thread ≡ Some t → result ≡ gets (world_of world.now).state t }
{
    match thread {
        Some(thread) => world.gets(thread),
        None => 0,
    }
}
