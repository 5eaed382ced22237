//! The spans of one kind, of all threads or mutexes.

ghost use Rattle.std.specs.Prelude.{◌≡◌, ◌≢◌, ◌≤◌, ◌∷◌, ℕ, List, IfOk, length};
ghost use Rattle.std.specs.Option.{option_map_or};
ghost use Rattle.pim_rows.specs.Moments.{Moment};
ghost use Rattle.pim_spans.specs.Spans.{Holding};
ghost use Rattle.pim_spans.specs.Kept.{IsKept, IsEither, kept_at, kept_of};

use crate::track::{Instant, Track};
use crate::window::Window;
use pim_world::Key;
use std::alloc::{AllocError, Global};

/// By place, the spans of one kind.
#[derive(Drop)]
pub(crate) struct Tracks {
    pub(crate) tracks: Vec<Track>,
}

impl Tracks {
    /// Returns that nothing holds.
    pub(crate) fn new(alloc: Global) -> Tracks
        ensures { (n : ℕ) → kept_at result.tracks.items n ≡ kept_of None }
    {
        Tracks {
            tracks: Vec::new(alloc),
        }
    }

    /// Goes on by a line, after which this holds at a place.
    ///
    /// # Errors
    ///
    /// Returns `AllocError` if out of memory.
    pub(crate) fn note(
        &mut self,
        alloc: Global,
        place: usize,
        said: Option<Key>,
        at: Instant,
        window: Window,
    ) -> Result<(), AllocError>
        ensures here { IfOk result (λ _. (f : Holding) (m : Moment) (ms : List Moment)
            → 1 ≤ place → said ≡ f (m ∷ ms) → at.line ≡ m.number → at.clock ≡ m.world.clock
            → IsEither window f m ms (kept_at self.old.tracks.items place)
            → IsKept window f (m ∷ ms) (kept_at self.new.tracks.items place)) }
        ensures others { IfOk result (λ _. (n : ℕ) → n ≢ place
            → kept_at self.new.tracks.items n ≡ kept_at self.old.tracks.items n) }
    {
        if place == 0 {
            return Ok(());
        }
        self.grow(alloc, place)?;
        self.tracks[place - 1].note(said, at, window)?;
        Ok(())
    }

    /// Makes place for as many.
    fn grow(&mut self, alloc: Global, count: usize) -> Result<(), AllocError>
        ensures same { IfOk result
            (λ _. (n : ℕ) → kept_at self.new.tracks.items n ≡ kept_at self.old.tracks.items n) }
        ensures len { IfOk result (λ _. count ≤ length self.new.tracks.items) }
    {
        for _place in self.tracks.len()..count {
            let Ok(()) = self.tracks.push(Track::new(alloc)) else {
                return Err(AllocError);
            };
        }
        Ok(())
    }

    /// Returns the line since which what holds at a place does, or 0 if nothing holds.
    pub(crate) fn line(&self, place: usize) -> u64
        ensures { result
            ≡ option_map_or (λ s. s.line) (kept_at self.now.tracks.items place).lasts 0 }
    {
        if place == 0 || self.tracks.len() < place {
            return 0;
        }
        match self.tracks[place - 1].lasts {
            Some(start) => start.line,
            None => 0,
        }
    }
}
