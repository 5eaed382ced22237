//! Who owns and awaits what, and what each thread gets.

ghost use Rattle.std.specs.Prelude.{◌≡◌, ◌++◌, ◌+◌, ◌∷◌, [], length, OnOk, OnErr, IfSome, None, ℕ};
ghost use Rattle.std.specs.Option.{option_map};
ghost use Rattle.pim_base.specs.Lists.{nth};
ghost use Rattle.pim_base.specs.State.{IsTask, IsMutex, start, owner_of, count_of, wait_of};
ghost use Rattle.pim_base.specs.State.{with_owner, with_count, with_wait, with_base, with_ceiling};
ghost use Rattle.pim_base.specs.Chains.{blocker, heir};
ghost use Rattle.pim_base.specs.Priorities.{own_priority};
ghost use Rattle.pim_waits.specs.Model.{protocol_in_model, wait_for};
ghost use Rattle.pim_waits.specs.Added.{with_thread, with_mutex};
ghost use Rattle.pim_waits.specs.Own.{IsNextOwned};
ghost use Rattle.pim_waits.specs.Touched.{Touches};
ghost use Rattle.pim_waits.specs.Waiting.{gets};

use crate::component::Component;
use crate::facts::Facts;
use crate::gather::gather;
use crate::place::{MutexPlace, ThreadPlace, nth};
use crate::settle::settle;
use pim_fact_lines::{Level, Protocol};
use std::alloc::{AllocError, Global};
use std::marker::Model;

/// Who owns and awaits what, and what each thread gets.
///
/// A change works out anew what the threads of a component get: of all that wait for each other
/// because of it, or did before. It appends these threads to a list. Every other thread is
/// untouched: it gets what it got, and has the same runner and the same mutex to blame. A change
/// costs nothing for these.
pub struct Waits {
    pub(crate) facts: Facts,
    /// What each thread gets.
    gets: Vec<Level>,
    /// The threads of the last component. It is kept for its memory.
    component: Component,
}

impl Model for Waits {
    ghost use Rattle.pim_base.specs.State.{State};

    ghost Value = { State };

    ghost use Rattle.pim_waits.specs.Settled.{IsSettled};

    ghost view = { λ w. w.facts };

    ghost invariant = { IsSettled };
}

// Each place that drops it calls this one function, where a derived drop would be a call for each
// part there.
impl Drop for Waits {
    fn drop(self) {
        let Waits {
            facts: _,
            gets: _,
            component: _,
        } = self;
    }
}

impl Waits {
    /// Returns a state without threads and mutexes.
    pub fn new(alloc: Global) -> Waits
        ensures { result ≡ start [] [] 0 }
    {
        Waits {
            facts: Facts::new(alloc),
            gets: Vec::new(alloc),
            component: Component::new(alloc),
        }
    }

    /// Returns how many threads there are.
    pub fn threads(&self) -> usize
        ensures { result ≡ length self.now.base }
    {
        self.facts.threads()
    }

    /// Returns how many mutexes there are.
    pub fn mutexes(&self) -> usize
        ensures { result ≡ length self.now.protocol }
    {
        self.facts.mutexes()
    }

    /// Returns the level of a thread, or `None` if there is no such thread.
    pub fn level(&self, thread: ThreadPlace) -> Option<Level>
        ensures { result ≡ nth self.now.base thread }
    {
        self.facts.level(thread)
    }

    /// Returns the owner of a mutex, or `None` if it is free or there is no such mutex.
    pub fn owner(&self, mutex: MutexPlace) -> Option<ThreadPlace>
        ensures { result ≡ owner_of self.now mutex }
    {
        self.facts.owner(mutex)
    }

    /// Returns how often its owner has locked a mutex and not unlocked it; 0 if it is free.
    pub fn count(&self, mutex: MutexPlace) -> u64
        ensures { result ≡ count_of self.now mutex }
    {
        self.facts.count(mutex)
    }

    /// Returns the mutex for which a thread waits, or `None` if it doesn't wait.
    pub fn awaited(&self, thread: ThreadPlace) -> Option<MutexPlace>
        ensures { option_map wait_for result ≡ wait_of self.now thread }
    {
        self.facts.awaited(thread)
    }

    /// Returns the protocol of a mutex, or `None` if there is no such mutex.
    pub fn protocol(&self, mutex: MutexPlace) -> Option<Protocol>
        ensures { option_map protocol_in_model result ≡ nth self.now.protocol mutex }
    {
        self.facts.protocol(mutex)
    }

    /// Returns the owner of the mutex that a thread awaits, or `None` if there is none.
    pub fn blocker(&self, thread: ThreadPlace) -> Option<ThreadPlace>
        ensures { result ≡ blocker self.now thread }
    {
        self.facts.blocker(thread)
    }

    /// Returns who inherits from a thread, or `None` if nobody does.
    pub fn heir(&self, thread: ThreadPlace) -> Option<ThreadPlace>
        ensures { result ≡ heir self.now thread }
    {
        self.facts.heir(thread)
    }

    /// Returns what a thread has by itself: the highest of its level and the ceilings of the
    /// PROTECT mutexes that it owns. Reads each mutex that it owns.
    pub fn own(&self, thread: ThreadPlace) -> Level
        requires { IsTask self.now thread }
        ensures { result ≡ own_priority self.now thread }
    {
        self.facts.own(thread)
    }

    /// Returns the first mutex after a place that a thread owns, or `None` if it owns none there.
    /// Reads each mutex that it owns.
    pub fn next_owned(&self, thread: ThreadPlace, after: MutexPlace) -> Option<MutexPlace>
        ensures { IsNextOwned self.now thread after result }
    {
        self.facts.next_owned(thread, after)
    }

    /// Returns what a thread gets, 0 if there is no such thread.
    pub fn gets(&self, thread: ThreadPlace) -> Level
        ensures { result ≡ gets self.now thread }
    {
        nth(&self.gets, thread.0).unwrap_or(lowest())
    }

    /// Adds a thread, which owns nothing and doesn't wait.
    ///
    /// # Errors
    ///
    /// Returns `AllocError` if out of memory. The state is as it was.
    pub fn add_thread(&mut self, level: Level) -> Result<(), AllocError>
        ensures ok { OnOk result (self.new ≡ with_thread self.old level) }
        ensures err { OnErr result (self.new ≡ self.old) }
    {
        self.gets.reserve(1)?;
        self.facts.add_thread(level)?;
        self.gets.push_reserved(level);
        Ok(())
    }

    /// Adds a mutex, which is free.
    ///
    /// # Errors
    ///
    /// Returns `AllocError` if out of memory. The state is as it was.
    pub fn add_mutex(&mut self, protocol: Protocol) -> Result<(), AllocError>
        ensures ok { OnOk result (self.new ≡ with_mutex self.old (protocol_in_model protocol)) }
        ensures err { OnErr result (self.new ≡ self.old) }
    {
        self.facts.add_mutex(protocol)?;
        Ok(())
    }

    /// Gives a mutex to a thread that has locked it once, or frees it. Touches no thread if nobody
    /// awaits the mutex and it has no ceiling.
    ///
    /// # Errors
    ///
    /// Returns `AllocError` if out of memory. The state is as it was.
    pub fn put_owner(
        &mut self,
        mutex: MutexPlace,
        owner: Option<ThreadPlace>,
        touched: &mut Vec<ThreadPlace>,
    ) -> Result<(), AllocError>
        requires { IfSome owner (IsTask self.old) }
        ensures ok { OnOk result (self.new ≡ with_owner self.old mutex owner) }
        ensures touched { OnOk result
            (Touches self.old self.new touched.old.items touched.new.items) }
        ensures err { OnErr result (self.new ≡ self.old) }
    {
        self.component.start(self.facts.threads())?;
        self.facts.add_sides(mutex, &owner, &mut self.component)?;
        gather(&self.facts, &mut self.component, touched)?;
        self.facts.put_owner(mutex, owner)?;
        settle(&self.facts, &mut self.gets, &self.component);
        Ok(())
    }

    /// Puts how often its owner has locked a mutex and not unlocked it. What threads get doesn't
    /// depend on it.
    pub fn put_count(&mut self, mutex: MutexPlace, count: u64)
        ensures { self.new ≡ with_count self.old mutex count }
    {
        self.facts.put_count(mutex, count);
    }

    /// Puts the mutex for which a thread waits, or that it doesn't wait. Touches no thread if that
    /// mutex is free, and so is the one for which it waited.
    ///
    /// # Errors
    ///
    /// Returns `AllocError` if out of memory. The state is as it was.
    pub fn put_awaited(
        &mut self,
        thread: ThreadPlace,
        mutex: Option<MutexPlace>,
        touched: &mut Vec<ThreadPlace>,
    ) -> Result<(), AllocError>
        requires thread { IsTask self.old thread }
        requires mutex { IfSome mutex (IsMutex self.old) }
        ensures ok { OnOk result
            (self.new ≡ with_wait self.old thread (option_map wait_for mutex)) }
        ensures touched { OnOk result
            (Touches self.old self.new touched.old.items touched.new.items) }
        ensures err { OnErr result (self.new ≡ self.old) }
    {
        self.component.start(self.facts.threads())?;
        self.facts.add_ends(thread, &mutex, &mut self.component)?;
        gather(&self.facts, &mut self.component, touched)?;
        self.facts.put_awaited(thread, mutex)?;
        settle(&self.facts, &mut self.gets, &self.component);
        Ok(())
    }

    /// Puts the level of a thread.
    ///
    /// # Errors
    ///
    /// Returns `AllocError` if out of memory. The state is as it was.
    pub fn put_level(
        &mut self,
        thread: ThreadPlace,
        level: Level,
        touched: &mut Vec<ThreadPlace>,
    ) -> Result<(), AllocError>
        requires { IsTask self.old thread }
        ensures ok { OnOk result (self.new ≡ with_base self.old thread level) }
        ensures touched { OnOk result
            (Touches self.old self.new touched.old.items touched.new.items) }
        ensures err { OnErr result (self.new ≡ self.old) }
    {
        self.component.start(self.facts.threads())?;
        self.component.add(thread)?;
        gather(&self.facts, &mut self.component, touched)?;
        self.facts.put_level(thread, level);
        settle(&self.facts, &mut self.gets, &self.component);
        Ok(())
    }

    /// Makes a mutex a PROTECT one with this ceiling.
    ///
    /// # Errors
    ///
    /// Returns `AllocError` if out of memory. The state is as it was.
    pub fn put_ceiling(
        &mut self,
        mutex: MutexPlace,
        ceiling: Level,
        touched: &mut Vec<ThreadPlace>,
    ) -> Result<(), AllocError>
        ensures ok { OnOk result (self.new ≡ with_ceiling self.old mutex ceiling) }
        ensures touched { OnOk result
            (Touches self.old self.new touched.old.items touched.new.items) }
        ensures err { OnErr result (self.new ≡ self.old) }
    {
        self.component.start(self.facts.threads())?;
        self.facts.add_owner(mutex, &mut self.component)?;
        gather(&self.facts, &mut self.component, touched)?;
        self.facts.put_ceiling(mutex, ceiling);
        settle(&self.facts, &mut self.gets, &self.component);
        Ok(())
    }
}

/// Returns level 0.
fn lowest() -> Level
    ensures { result ≡ 0 }
{
    match Level::new(0) {
        Some(level) => level,
        None => unreachable!(),
    }
}
