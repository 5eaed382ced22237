//! What a thread has by itself.

ghost use Rattle.std.specs.Prelude.{◌≡◌, max, unwrap_or};
ghost use Rattle.pim_base.specs.State.{IsTask};
ghost use Rattle.pim_base.specs.Priorities.{own_priority};
ghost use Rattle.pim_waits.specs.Own.{ceiling_for, nearer, IsNextOwned};

use crate::facts::Facts;
use crate::place::{MutexPlace, ThreadPlace};
use pim_fact_lines::{Level, Protocol};

impl Facts {
    /// Returns what a thread has by itself: the highest of its level and the ceilings of the
    /// PROTECT mutexes that it owns. Reads each mutex that it owns.
    pub fn own(&self, thread: ThreadPlace) -> Level
        requires { IsTask self.now thread }
        ensures { result ≡ own_priority self.now thread }
    {
        let Some(mut own) = self.level(thread) else {
            unreachable!()
        };
        for mutex in self.owned.of(thread.0) {
            own = higher(own, self.ceiling_for(MutexPlace(*mutex), thread));
        }
        own
    }

    /// Returns the first mutex after a place that a thread owns, or `None` if it owns none there.
    /// Reads each mutex that it owns.
    pub fn next_owned(&self, thread: ThreadPlace, after: MutexPlace) -> Option<MutexPlace>
        ensures { IsNextOwned self.now thread after result }
    {
        let mut next = None;
        for mutex in self.owned.of(thread.0) {
            next = self.nearer(thread, after, next, MutexPlace(*mutex));
        }
        next
    }

    /// Returns the lower of the next mutex so far and another one, if that is after a place and the
    /// thread owns it.
    fn nearer(
        &self,
        thread: ThreadPlace,
        after: MutexPlace,
        next: Option<MutexPlace>,
        mutex: MutexPlace,
    ) -> Option<MutexPlace>
        ensures { result ≡ nearer self.now thread after next mutex }
    {
        if mutex.0 <= after.0 {
            return next;
        }
        if self.owner(mutex) != Some(thread) {
            return next;
        }
        let Some(next) = next else {
            return Some(mutex);
        };
        if next.0 < mutex.0 {
            Some(next)
        } else {
            Some(mutex)
        }
    }

    /// Returns the ceiling of a PROTECT mutex that the thread owns, or `None` for any other one.
    fn ceiling_for(&self, mutex: MutexPlace, thread: ThreadPlace) -> Option<Level>
        ensures { unwrap_or result 0 ≡ ceiling_for self.now mutex thread }
    {
        if self.owner(mutex) != Some(thread) {
            return None;
        }
        match self.protocol(mutex)? {
            Protocol::Protect(ceiling) => Some(ceiling),
            Protocol::None | Protocol::Inherit => None,
        }
    }
}

/// Returns the higher of two levels.
fn higher(level: Level, other: Option<Level>) -> Level
    ensures { result ≡ max level (unwrap_or other 0) }
{
    match other {
        Some(other) if level < other => other,
        _ => level,
    }
}
