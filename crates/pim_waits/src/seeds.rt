//! The threads that a change is about.

ghost use Rattle.std.specs.Prelude.{◌≡◌, ◌≤◌, ◌⊎◌, true, Some, ℕ, length, OnOk};
ghost use Rattle.pim_base.specs.Lists.{contains};
ghost use Rattle.pim_base.specs.State.{owner_of};
ghost use Rattle.pim_waits.specs.Members.{Extends};
ghost use Rattle.pim_waits.specs.Sides.{HasSides, IsIdle, HasEnds, IsFree};

use crate::component::Component;
use crate::facts::Facts;
use crate::place::{MutexPlace, ThreadPlace};
use pim_fact_lines::Protocol;
use std::alloc::AllocError;

impl Facts {
    /// Returns whether a mutex gives its owner nothing: it has no ceiling, and no thread waits for
    /// it.
    fn is_idle(&self, mutex: MutexPlace) -> bool
        ensures { result ≡ true → IsIdle self.now mutex }
    {
        match self.protocol(mutex) {
            Some(Protocol::Protect(_)) => false,
            Some(Protocol::None) | Some(Protocol::Inherit) | None => !self.is_awaited(mutex),
        }
    }

    /// Adds the owner of a mutex.
    ///
    /// # Errors
    ///
    /// Returns `AllocError` if out of memory.
    pub fn add_owner(&self, mutex: MutexPlace, component: &mut Component) -> Result<(), AllocError>
        requires { component.old.room ≡ length self.now.base }
        ensures extends { OnOk result (Extends component.old component.new) }
        ensures owner { OnOk result
            ((t : ℕ) → owner_of self.now mutex ≡ Some t → contains component.new.threads t ≡ true) }
        ensures room { component.new.room ≡ component.old.room }
    {
        let _threads = self.threads(); // owners are known threads, as its contract says
        match self.owner(mutex) {
            Some(owner) => component.add(owner),
            None => Ok(()),
        }
    }

    /// Adds the threads that another owner of a mutex is about: those that wait for it, its owner
    /// and its new owner. If it gives its owner nothing, there are none.
    ///
    /// # Errors
    ///
    /// Returns `AllocError` if out of memory.
    pub fn add_sides(
        &self,
        mutex: MutexPlace,
        owner: &Option<ThreadPlace>,
        component: &mut Component,
    ) -> Result<(), AllocError>
        requires room { component.old.room ≡ length self.now.base }
        requires known { (t : ℕ) → owner.now ≡ Some t → (1 ≤ t) × (t ≤ length self.now.base) }
        ensures sides { OnOk result
            (IsIdle self.now mutex ⊎ HasSides self.now mutex owner.now component.new.threads) }
        ensures room { component.new.room ≡ component.old.room }
    {
        if self.is_idle(mutex) {
            return Ok(());
        }
        self.add_waiting(mutex, component)?;
        self.add_owner(mutex, component)?;
        if let Some(owner) = owner {
            component.add(*owner)?;
        }
        Ok(())
    }

    /// Adds the threads that another wait of a thread is about: the thread, and the owner of the
    /// mutex that it will await. If that has none, nor the mutex that it awaits, there are none.
    ///
    /// # Errors
    ///
    /// Returns `AllocError` if out of memory.
    pub fn add_ends(
        &self,
        thread: ThreadPlace,
        mutex: &Option<MutexPlace>,
        component: &mut Component,
    ) -> Result<(), AllocError>
        requires room { component.old.room ≡ length self.now.base }
        requires known { (1 ≤ thread) × (thread ≤ length self.now.base) }
        ensures ends { OnOk result (IsFree self.now thread mutex.now
            ⊎ HasEnds self.now thread mutex.now component.new.threads) }
        ensures room { component.new.room ≡ component.old.room }
    {
        let after = match mutex {
            Some(mutex) => self.owner(*mutex),
            None => None,
        };
        if self.blocker(thread).is_none() && after.is_none() {
            return Ok(());
        }
        component.add(thread)?;
        match mutex {
            Some(mutex) => self.add_owner(*mutex, component),
            None => Ok(()),
        }
    }
}
