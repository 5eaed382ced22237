//! Who has to run, and which mutex is to blame.

ghost use Rattle.std.specs.Prelude.{◌≡◌, Some};
ghost use Rattle.pim_waits.specs.Waiting.{last_item, way, runner, blame, passes_less};

use crate::place::{MutexPlace, ThreadPlace};
use crate::waits::Waits;
use pim_fact_lines::Level;

impl Waits {
    /// Returns the thread that has to run for the wait of a thread to end. There is none if the
    /// thread doesn't wait, while the mutex that it awaits is free, or if its way leads into a
    /// cycle.
    ///
    /// Follows the way of the thread. If that leads into a cycle, as many hops as there are
    /// threads.
    pub fn runner(&self, thread: ThreadPlace) -> Option<ThreadPlace>
        ensures { result ≡ runner self.now thread }
    {
        let last = self.end_of_way(thread);
        if last == thread || self.blocker(last).is_some() {
            return None;
        }
        Some(last)
    }

    /// Returns the last thread on the way of a thread.
    fn end_of_way(&self, thread: ThreadPlace) -> ThreadPlace
        ensures { Some result ≡ last_item (way self.now thread) }
    {
        let mut last = thread;
        for _hop in 0..self.facts.threads() {
            match self.blocker(last) {
                Some(blocker) => last = blocker,
                None => return last,
            }
        }
        last
    }

    /// Returns the mutex to blame if a thread is inverted: the first one on its way whose owner
    /// gets less than the thread.
    ///
    /// Follows the way of the thread to that mutex. If there is none and the way leads into a
    /// cycle, as many hops as there are threads.
    pub fn blame(&self, thread: ThreadPlace) -> Option<MutexPlace>
        ensures { result ≡ blame self.now thread }
    {
        let level = self.gets(thread);
        let mut at = thread;
        for _hop in 0..self.facts.threads() {
            if let Some(mutex) = self.passes_less(level, at) {
                return Some(mutex);
            }
            at = self.blocker(at)?;
        }
        self.passes_less(level, at)
    }

    /// Returns the mutex that a thread awaits, if its owner gets less than this level.
    fn passes_less(&self, level: Level, thread: ThreadPlace) -> Option<MutexPlace>
        ensures { result ≡ passes_less self.now level thread }
    {
        let blocker = self.blocker(thread)?;
        if self.gets(blocker) < level {
            self.awaited(thread)
        } else {
            None
        }
    }
}
