//! The facts: who owns and awaits what.

ghost use Rattle.std.specs.Prelude.{◌≡◌, ◌≤◌, ◌<◌, ◌+◌, ◌^◌, length, OnOk, OnErr, IfSome, [], None};
ghost use Rattle.std.specs.Prelude.{Some, ℕ, max};
ghost use Rattle.std.specs.Option.{option_map};
ghost use Rattle.pim_base.specs.Lists.{nth};
ghost use Rattle.pim_base.specs.State.{IsTask, IsMutex, start, owner_of, count_of, first_count};
ghost use Rattle.pim_base.specs.State.{wait_of, with_owner, with_count, with_wait, with_base};
ghost use Rattle.pim_base.specs.State.{with_ceiling};
ghost use Rattle.pim_base.specs.Chains.{blocker, heir};
ghost use Rattle.pim_waits.specs.Whole.{IsWhole};
ghost use Rattle.pim_waits.specs.Model.{protocol_in_model, wait_for};
ghost use Rattle.pim_waits.specs.Added.{with_thread, with_mutex};

use crate::groups::Groups;
use crate::place::{MutexPlace, ThreadPlace, mutex_number, nth, put, thread_number};
use pim_fact_lines::{Level, Protocol};
use std::alloc::{AllocError, Global};
use std::marker::Model;

/// Who owns and awaits what, without what threads get.
///
/// From a thread the lists of owned mutexes and of waiting threads lead to those that it blocks.
/// After an allocation that failed, a list may have more numbers than it should, so whoever reads
/// one compares with the facts where it matters.
pub(crate) struct Facts {
    levels: Vec<Level>,
    awaited: Vec<Option<MutexPlace>>,
    protocols: Vec<Protocol>,
    owners: Vec<Option<ThreadPlace>>,
    counts: Vec<u64>,
    /// For each thread the mutexes that it owns.
    pub(crate) owned: Groups,
    /// For each mutex the threads that await it.
    pub(crate) waiting: Groups,
}

impl Model for Facts {
    ghost use Rattle.pim_base.specs.State.{State};

    ghost Value = { State };

    ghost use Rattle.pim_waits.specs.Shown.{state_of, AreFacts};

    ghost view = { state_of };

    ghost invariant = { AreFacts };
}

// Each place that drops it calls this one function, where a derived drop would be a call for each
// part there.
impl Drop for Facts {
    fn drop(self) {
        let Facts {
            levels: _,
            awaited: _,
            protocols: _,
            owners: _,
            counts: _,
            owned: _,
            waiting: _,
        } = self;
    }
}

impl Facts {
    /// Returns a state without threads and mutexes.
    pub fn new(alloc: Global) -> Facts
        ensures { result ≡ start [] [] 0 }
    {
        Facts {
            levels: Vec::new(alloc),
            awaited: Vec::new(alloc),
            protocols: Vec::new(alloc),
            owners: Vec::new(alloc),
            counts: Vec::new(alloc),
            owned: Groups::new(alloc),
            waiting: Groups::new(alloc),
        }
    }

    /// Returns how many mutexes there are.
    pub fn mutexes(&self) -> usize
        ensures { result ≡ length self.now.protocol }
    {
        self.protocols.len()
    }

    /// Returns the number of threads.
    pub fn threads(&self) -> usize
        ensures count { result ≡ length self.now.base }
        ensures whole { IsWhole self.now }
    {
        self.levels.len()
    }

    /// Returns the level of a thread, or `None` if there is no such thread.
    pub fn level(&self, thread: ThreadPlace) -> Option<Level>
        ensures { result ≡ nth self.now.base thread }
    {
        nth(&self.levels, thread.0)
    }

    /// Returns the owner of a mutex, or `None` if it is free or there is no such mutex.
    pub fn owner(&self, mutex: MutexPlace) -> Option<ThreadPlace>
        ensures { result ≡ owner_of self.now mutex }
    {
        nth(&self.owners, mutex.0)?
    }

    /// Returns how often its owner has locked a mutex and not unlocked it; 0 if it is free.
    pub fn count(&self, mutex: MutexPlace) -> u64
        ensures { result ≡ count_of self.now mutex }
    {
        nth(&self.counts, mutex.0).unwrap_or(0)
    }

    /// Returns the mutex for which a thread waits, or `None` if it doesn't wait.
    pub fn awaited(&self, thread: ThreadPlace) -> Option<MutexPlace>
        ensures { option_map wait_for result ≡ wait_of self.now thread }
    {
        nth(&self.awaited, thread.0)?
    }

    /// Returns the protocol of a mutex, or `None` if there is no such mutex.
    pub fn protocol(&self, mutex: MutexPlace) -> Option<Protocol>
        ensures { option_map protocol_in_model result ≡ nth self.now.protocol mutex }
    {
        nth(&self.protocols, mutex.0)
    }

    /// Returns the owner of the mutex that a thread awaits, or `None` if there is none.
    pub fn blocker(&self, thread: ThreadPlace) -> Option<ThreadPlace>
        ensures { result ≡ blocker self.now thread }
    {
        let mutex = self.awaited(thread)?;
        self.owner(mutex)
    }

    /// Returns who inherits from a thread, or `None` if nobody does.
    pub fn heir(&self, thread: ThreadPlace) -> Option<ThreadPlace>
        ensures { result ≡ heir self.now thread }
    {
        let mutex = self.awaited(thread)?;
        match self.protocol(mutex)? {
            Protocol::Inherit => self.owner(mutex),
            Protocol::None | Protocol::Protect(_) => None,
        }
    }

    /// Adds a thread, which owns nothing and doesn't wait.
    ///
    /// # Errors
    ///
    /// Returns `AllocError` if out of memory. The state is as it was.
    pub fn add_thread(&mut self, level: Level) -> Result<(), AllocError>
        ensures ok { OnOk result (self.new ≡ with_thread self.old level) }
        ensures err { OnErr result (self.new ≡ self.old) }
    {
        self.levels.reserve(1)?;
        self.awaited.reserve(1)?;
        self.levels.push_reserved(level);
        self.awaited.push_reserved(None);
        Ok(())
    }

    /// Adds a mutex, which is free.
    ///
    /// # Errors
    ///
    /// Returns `AllocError` if out of memory. The state is as it was.
    pub fn add_mutex(&mut self, protocol: Protocol) -> Result<(), AllocError>
        ensures ok { OnOk result (self.new ≡ with_mutex self.old (protocol_in_model protocol)) }
        ensures err { OnErr result (self.new ≡ self.old) }
    {
        self.protocols.reserve(1)?;
        self.owners.reserve(1)?;
        self.counts.reserve(1)?;
        self.protocols.push_reserved(protocol);
        self.owners.push_reserved(None);
        self.counts.push_reserved(0);
        Ok(())
    }

    /// Gives a mutex to a thread that has locked it once, or frees it.
    ///
    /// # Errors
    ///
    /// Returns `AllocError` if out of memory. The state is as it was.
    pub fn put_owner(
        &mut self,
        mutex: MutexPlace,
        owner: Option<ThreadPlace>,
    ) -> Result<(), AllocError>
        requires { IfSome owner (IsTask self.old) }
        ensures ok { OnOk result (self.new ≡ with_owner self.old mutex owner) }
        ensures err { OnErr result (self.new ≡ self.old) }
    {
        let from = thread_number(&self.owner(mutex));
        let to = thread_number(&owner);
        self.owned.transfer(mutex.0, from, to)?;
        put(&mut self.counts, mutex.0, first_count(&owner));
        put(&mut self.owners, mutex.0, owner);
        Ok(())
    }

    /// Puts how often its owner has locked a mutex and not unlocked it.
    pub fn put_count(&mut self, mutex: MutexPlace, count: u64)
        ensures { self.new ≡ with_count self.old mutex count }
    {
        put(&mut self.counts, mutex.0, count);
    }

    /// Puts the mutex for which a thread waits, or that it doesn't wait.
    ///
    /// # Errors
    ///
    /// Returns `AllocError` if out of memory. The state is as it was.
    #[tactic(auto, using(crate::proofs::Places::map_put))]
    pub fn put_awaited(
        &mut self,
        thread: ThreadPlace,
        mutex: Option<MutexPlace>,
    ) -> Result<(), AllocError>
        requires { IfSome mutex (IsMutex self.old) }
        ensures ok { OnOk result
            (self.new ≡ with_wait self.old thread (option_map wait_for mutex)) }
        ensures err { OnErr result (self.new ≡ self.old) }
    {
        let from = mutex_number(&self.awaited(thread));
        let to = mutex_number(&mutex);
        self.waiting.transfer(thread.0, from, to)?;
        put(&mut self.awaited, thread.0, mutex);
        Ok(())
    }

    /// Puts the level of a thread.
    pub fn put_level(&mut self, thread: ThreadPlace, level: Level)
        ensures { self.new ≡ with_base self.old thread level }
    {
        put(&mut self.levels, thread.0, level);
    }

    /// Makes a mutex a PROTECT one with this ceiling.
    #[tactic(auto, using(crate::proofs::Places::map_put))]
    pub fn put_ceiling(&mut self, mutex: MutexPlace, ceiling: Level)
        ensures { self.new ≡ with_ceiling self.old mutex ceiling }
    {
        put(&mut self.protocols, mutex.0, Protocol::Protect(ceiling));
    }
}

/// Returns how often a new owner has locked a mutex: once, or not at all if there is none.
fn first_count(owner: &Option<ThreadPlace>) -> u64
    ensures { result ≡ first_count owner.now }
{
    match owner {
        Some(_) => 1,
        None => 0,
    }
}
