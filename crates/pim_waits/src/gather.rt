//! Gathers the threads that wait for each other.

ghost use Rattle.std.specs.Prelude.{◌≡◌, ◌++◌, true, false, Some, ℕ, length, OnOk, OnErr};
ghost use Rattle.pim_base.specs.Lists.{contains};
ghost use Rattle.pim_base.specs.Chains.{blocker};
ghost use Rattle.pim_waits.specs.Awaited.{awaited_of};
ghost use Rattle.pim_waits.specs.Members.{Extends, HasNeighbours, IsClosed};
ghost use Rattle.pim_waits.specs.Whole.{IsWhole};

use crate::component::Component;
use crate::facts::Facts;
use crate::place::{MutexPlace, ThreadPlace};
use std::alloc::AllocError;

impl Facts {
    /// Returns whether a thread waits for the mutex.
    pub fn is_awaited(&self, mutex: MutexPlace) -> bool
        ensures { result ≡ false → (t : ℕ) → awaited_of self.now t ≡ Some mutex → ⊥ }
    {
        !self.waiting.of(mutex.0).is_empty()
    }

    /// Adds the threads that wait for a mutex.
    ///
    /// # Errors
    ///
    /// Returns `AllocError` if out of memory.
    pub fn add_waiting(
        &self,
        mutex: MutexPlace,
        component: &mut Component,
    ) -> Result<(), AllocError>
        requires { component.old.room ≡ length self.now.base }
        ensures extends { OnOk result (Extends component.old component.new) }
        ensures waiting { OnOk result ((t : ℕ)
            → awaited_of self.now t ≡ Some mutex → contains component.new.threads t ≡ true) }
        ensures room { component.new.room ≡ component.old.room }
    {
        for thread in self.waiting.of(mutex.0) {
            component.add(ThreadPlace(*thread))?;
        }
        Ok(())
    }

    /// Adds the threads that a thread blocks.
    ///
    /// # Errors
    ///
    /// Returns `AllocError` if out of memory.
    fn add_blocked(&self, thread: ThreadPlace, component: &mut Component) -> Result<(), AllocError>
        requires { component.old.room ≡ length self.now.base }
        ensures extends { OnOk result (Extends component.old component.new) }
        ensures blocked { OnOk result
            ((t : ℕ) → blocker self.now t ≡ Some thread → contains component.new.threads t ≡ true) }
        ensures room { component.new.room ≡ component.old.room }
    {
        for mutex in self.owned.of(thread.0) {
            self.add_waiting(MutexPlace(*mutex), component)?;
        }
        Ok(())
    }

    /// Adds the threads that a thread blocks, and the one that blocks it.
    ///
    /// # Errors
    ///
    /// Returns `AllocError` if out of memory.
    fn add_neighbours(
        &self,
        thread: ThreadPlace,
        component: &mut Component,
    ) -> Result<(), AllocError>
        requires { component.old.room ≡ length self.now.base }
        ensures extends { OnOk result (Extends component.old component.new) }
        ensures neighbours { OnOk result (HasNeighbours self.now component.new.threads thread) }
        ensures room { component.new.room ≡ component.old.room }
    {
        let _threads = self.threads(); // owners are known threads, as its contract says
        self.add_blocked(thread, component)?;
        match self.blocker(thread) {
            Some(blocker) => component.add(blocker),
            None => Ok(()),
        }
    }
}

/// Adds all threads that wait for one of the component, or for which one waits, and so on, and
/// appends the component to a list. Reads no other threads, and no mutexes but those that they own.
///
/// # Errors
///
/// Returns `AllocError` if out of memory.
pub(crate) fn gather(
    facts: &Facts,
    component: &mut Component,
    touched: &mut Vec<ThreadPlace>,
) -> Result<(), AllocError>
    requires { component.old.room ≡ length facts.now.base }
    ensures extends { OnOk result (Extends component.old component.new) }
    ensures closed { OnOk result (IsClosed facts.now component.new.threads) }
    ensures appended { OnOk result
        (touched.new.items ≡ touched.old.items ++ component.new.threads) }
    ensures room { component.new.room ≡ component.old.room }
{
    let mut done = 0;
    while let Some(thread) = component.get(done) {
        facts.add_neighbours(thread, component)?;
        done += 1;
    }
    touched.extend_from_slice(component.members())?;
    Ok(())
}
