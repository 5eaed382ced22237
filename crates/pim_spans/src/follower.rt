//! What the spans need of the lines so far.

ghost use Rattle.std.specs.Prelude.{◌≡◌, ◌++◌, ◌≢◌, ◌∷◌, ℕ, List, IfOk, MatchOption, Some, None};
ghost use Rattle.pim_world.specs.Held.{world_of};
ghost use Rattle.pim_rows.specs.Moments.{Moment, now, first_moments, followed_by};
ghost use Rattle.pim_spans.specs.Following.{Follows, HasTaken};
ghost use Rattle.pim_world.specs.Texts.{line_after};
ghost use Rattle.pim_spans.specs.Found.{spans_text};
ghost use Rattle.pim_spans.specs.Holding.{holding, owned_by};
ghost use Rattle.pim_spans.specs.Kept.{AreKept, kept_at};
ghost use Rattle.pim_spans.specs.declared.kind.Kind.TheVariants as kinds;

use crate::affected::affected;
use crate::kind::Kind;
use crate::text::put_tracks;
use crate::thread_tracks::ThreadTracks;
use crate::track::Instant;
use crate::tracks::Tracks;
use crate::window::Window;
use pim_fact_lines::Line;
use pim_rows::{actor, locked_mutex};
use pim_waits::MutexPlace;
use pim_world::{Key, Why, World};
use std::alloc::{AllocError, Global};

/// What the spans need of the lines so far.
pub(crate) struct Follower {
    pub(crate) world: World,
    /// The number of the newest line.
    pub(crate) number: u64,
    pub(crate) window: Window,
    pub(crate) threads: ThreadTracks,
    /// By mutex, who owned it.
    pub(crate) owns: Tracks,
}

// Each place that drops it calls this one function, where a derived drop would be a call for each
// part there.
impl Drop for Follower {
    fn drop(self) {
        let Follower {
            world: _,
            number: _,
            window: _,
            threads: _,
            owns: _,
        } = self;
    }
}

impl Follower {
    /// Returns the follower after line 1.
    pub(crate) fn new(alloc: Global, window: Window) -> Follower
        ensures follows { Follows result first_moments }
        ensures window { result.window ≡ window }
    {
        Follower {
            world: World::new(alloc),
            number: 1,
            window,
            threads: ThreadTracks {
                gets: Tracks::new(alloc),
                waits: Tracks::new(alloc),
                inverted: Tracks::new(alloc),
                stalled: Tracks::new(alloc),
            },
            owns: Tracks::new(alloc),
        }
    }

    /// Goes on by the line that bytes spell. Returns why it is invalid, or `None` if it is valid.
    ///
    /// # Errors
    ///
    /// Returns `AllocError` if out of memory.
    pub(crate) fn take(&mut self, alloc: Global, bytes: &[u8]) -> Result<Option<Why>, AllocError>
        ensures taken { IfOk result (λ why. (ms : List Moment) → Follows self.old ms
            → MatchOption why (HasTaken self.new ms bytes.now)
            (λ _. line_after (now ms) bytes.now ≡ None)) }
        ensures window { self.new.window ≡ self.old.window }
    {
        let line = match self.world.read(bytes) {
            Ok(line) => line,
            Err(why) => return Ok(Some(why)),
        };
        self.step(alloc, &line)?;
        Ok(None)
    }

    /// Goes on by a line that may follow.
    ///
    /// # Errors
    ///
    /// Returns `AllocError` if out of memory.
    fn step(&mut self, alloc: Global, line: &Line) -> Result<(), AllocError>
        ensures follows { IfOk result (λ _. (ms : List Moment) → Follows self.old ms
            → Follows self.new (followed_by ms line.now)) }
        ensures window { self.new.window ≡ self.old.window }
    {
        let Some(number) = self.number.checked_add(1) else {
            return Err(AllocError);
        };
        let thread = actor(&self.world, line);
        let mutex = locked_mutex(&self.world, line);
        self.world.go(alloc, line)?;
        self.number = number;
        let at = Instant {
            line: number,
            clock: self.world.clock(),
        };
        let affected = affected(alloc, &self.world, line, thread)?;
        self.threads
            .follow(alloc, &self.world, &affected, at, self.window)?;
        follow_owner(&mut self.owns, alloc, &self.world, mutex, at, self.window)?;
        Ok(())
    }

    /// Appends all spans.
    ///
    /// # Errors
    ///
    /// Returns `AllocError` if out of memory.
    pub(crate) fn put_all(&self, out: &mut Vec<u8>) -> Result<(), AllocError>
        ensures { IfOk result (λ _. (ms : List Moment) → Follows self.now ms
            → out.new.items ≡ out.old.items ++ spans_text self.now.window ms) }
    {
        let (world, window) = (&self.world, self.window);
        let count = world.waits().threads();
        put_tracks(out, world, window, Kind::Gets, &self.threads.gets, count)?;
        let mutexes = world.waits().mutexes();
        put_tracks(out, world, window, Kind::Owns, &self.owns, mutexes)?;
        put_tracks(out, world, window, Kind::Waits, &self.threads.waits, count)?;
        put_tracks(
            out,
            world,
            window,
            Kind::Inverted,
            &self.threads.inverted,
            count,
        )?;
        put_tracks(
            out,
            world,
            window,
            Kind::Stalled,
            &self.threads.stalled,
            count,
        )?;
        Ok(())
    }
}

/// Goes on by a line with who owned mutexes. Takes the world after it, and the mutex that it locks
/// or releases.
fn follow_owner(
    owns: &mut Tracks,
    alloc: Global,
    world: &World,
    mutex: Option<MutexPlace>,
    at: Instant,
    window: Window,
) -> Result<(), AllocError>
    ensures { IfOk result (λ _. (m : Moment) (ms : List Moment)
        → world_of world.now ≡ m.world → at.line ≡ m.number → at.clock ≡ m.world.clock
        → ((n : ℕ) → ((k : ℕ) → mutex ≡ Some k → k ≢ n)
        → holding kinds.Owns n (m ∷ ms) ≡ holding kinds.Owns n ms)
        → AreKept window (holding kinds.Owns) ms (kept_at owns.old.tracks.items)
        → AreKept window (holding kinds.Owns) (m ∷ ms) (kept_at owns.new.tracks.items)) }
{
    let Some(mutex) = mutex else {
        return Ok(());
    };
    owns.note(alloc, mutex.0, owned_by(world, mutex), at, window)?;
    Ok(())
}

/// Returns the owner of a mutex.
fn owned_by(world: &World, mutex: MutexPlace) -> Option<Key>
    ensures { result ≡ owned_by mutex (world_of world.now) }
{
    match world.waits().owner(mutex) {
        Some(owner) => Some((owner.0 as u64, 0, 0)),
        None => None,
    }
}
