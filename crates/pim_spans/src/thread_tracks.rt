//! The spans of threads.

ghost use Rattle.std.specs.Prelude.{◌≡◌, ◌≢◌, ◌≤◌, ◌∷◌, ℕ, false, List, IfOk};
ghost use Rattle.pim_base.specs.Lists.{contains};
ghost use Rattle.pim_world.specs.Held.{world_of};
ghost use Rattle.pim_rows.specs.Moments.{Moment};
ghost use Rattle.pim_spans.specs.Following.{AreThreads, IsThread, IsThreadEither, IsThreadLike};
ghost use Rattle.pim_spans.specs.Following.{AreUnmoved};
ghost use Rattle.pim_spans.specs.Holding.{level_of, awaited_by, of_wait};

use crate::track::Instant;
use crate::tracks::Tracks;
use crate::window::Window;
use pim_waits::ThreadPlace;
use pim_world::{Key, Standing, World};
use std::alloc::{AllocError, Global};

/// The spans of threads, by kind.
pub(crate) struct ThreadTracks {
    pub(crate) gets: Tracks,
    pub(crate) waits: Tracks,
    pub(crate) inverted: Tracks,
    pub(crate) stalled: Tracks,
}

// Each place that drops it calls this one function, where a derived drop would be a call for each
// part there.
impl Drop for ThreadTracks {
    fn drop(self) {
        let ThreadTracks {
            gets: _,
            waits: _,
            inverted: _,
            stalled: _,
        } = self;
    }
}

impl ThreadTracks {
    /// Goes on by a line. Takes the world after it, and the threads of which something else may
    /// hold.
    ///
    /// # Errors
    ///
    /// Returns `AllocError` if out of memory.
    pub(crate) fn follow(
        &mut self,
        alloc: Global,
        world: &World,
        affected: &[ThreadPlace],
        at: Instant,
        window: Window,
    ) -> Result<(), AllocError>
        ensures { IfOk result (λ _. (m : Moment) (ms : List Moment)
            → world_of world.now ≡ m.world → at.line ≡ m.number → at.clock ≡ m.world.clock
            → AreUnmoved m ms affected.now → AreThreads window ms self.old
            → AreThreads window (m ∷ ms) self.new) }
    {
        for thread in affected {
            self.note(alloc, world, *thread, at, window)?;
        }
        Ok(())
    }

    /// Goes on with the spans of a thread.
    fn note(
        &mut self,
        alloc: Global,
        world: &World,
        thread: ThreadPlace,
        at: Instant,
        window: Window,
    ) -> Result<(), AllocError>
        ensures here { IfOk result (λ _. (m : Moment) (ms : List Moment) → 1 ≤ thread
            → world_of world.now ≡ m.world → at.line ≡ m.number → at.clock ≡ m.world.clock
            → IsThreadEither window m ms self.old thread
            → IsThread window (m ∷ ms) self.new thread) }
        ensures others { IfOk result (λ _. (n : ℕ) → n ≢ thread
            → IsThreadLike self.old self.new n) }
    {
        let place = thread.0;
        self.gets
            .note(alloc, place, level_of(world, thread), at, window)?;
        self.waits
            .note(alloc, place, awaited_by(world, thread), at, window)?;
        let line = self.waits.line(place);
        let standing = Standing::of(world, thread);
        let inverted = of_wait(line, standing.inverted);
        self.inverted.note(alloc, place, inverted, at, window)?;
        let stalled = of_wait(line, standing.stalled);
        self.stalled.note(alloc, place, stalled, at, window)?;
        Ok(())
    }
}

/// Returns what a thread gets, and its level.
fn level_of(world: &World, thread: ThreadPlace) -> Option<Key>
    ensures { result ≡ level_of thread (world_of world.now) }
{
    match world.waits().level(thread) {
        Some(level) => Some((world.gets(thread), u64::from(level.get()), 0)),
        None => None,
    }
}

/// Returns the mutex that a thread awaits.
fn awaited_by(world: &World, thread: ThreadPlace) -> Option<Key>
    ensures { result ≡ awaited_by thread (world_of world.now) }
{
    match world.waits().awaited(thread) {
        Some(mutex) => Some((world.mutex_number(mutex), 0, 0)),
        None => None,
    }
}

/// Returns the line of a wait and the first two of these numbers.
fn of_wait(line: u64, key: Option<Key>) -> Option<Key>
    ensures { result ≡ of_wait line key }
{
    match key {
        Some(key) => Some((line, key.0, key.1)),
        None => None,
    }
}
