//! What is owned and waited for, with the stored priorities and the queues.

ghost use Rattle.std.specs.Prelude.{◌≡◌, ◌≢◌, ◌≤◌, ◌<◌, ◌+◌, ◌-◌, ◌↔◌, IsTrue, length, IfOk, None, Some, true, false, ℕ};
ghost use Rattle.std.specs.Option.{option_copied, option_map};
ghost use Rattle.pim_queue.specs.QueueView.{QueueView};
ghost use Rattle.pim_base.specs.declared.limits.TheConstants.{MAX_TASKS, MAX_MUTEXES, MAX_COUNT};
ghost use Rattle.pim_base.specs.Lists.{nth, first_item, put};
ghost use Rattle.pim_base.specs.State.{IsTask, IsMutex, base_of, protocol_of, owner_of, count_of, first_count, owned, wait_of, is_recursive, with_owner, with_count, with_base, with_protocol, with_ceiling};
ghost use Rattle.pim_base.specs.Chains.{blocker, heir_of, leads_back};
ghost use Rattle.pim_base.specs.Checks.{not_protect};
ghost use Rattle.pim_base.specs.Laws.{IsSound};
ghost use Rattle.pim_base.specs.Priorities.{ceiling};
ghost use Rattle.pim_base.specs.declared.steps.Wait.{Wait};
ghost use Rattle.pim_chain.specs.Views.{Ready, fresh, with_state, queue_at, stored_at, waiter_at};
ghost use Rattle.pim_sets.specs.Numbers.{members};
ghost use Rattle.pim_chain.specs.Adopted.{IsUnawaited, is_protect};
ghost use Rattle.pim_chain.specs.Settled.{Calm, Unsettles, joined, left};

use crate::queues::Queues;
use crate::visits::Visits;
use pim_base::{MutexNo, Prio, Protocol, TaskNo, Wait, Waiter, nth};
use pim_queue::Queue;
use pim_sets::{NumberSet, Owned, OwnedSets, filled, put};
use std::alloc::{AllocError, Global};
use std::marker::Model;

/// The facts about tasks and mutexes, the stored priorities and the queues.
///
/// Only `new` and `try_clone` allocate: they make all the room that the other calls use. A getter returns `None` for
/// an unknown number, and a test returns what the definitions say of it. The other calls require known numbers: those
/// that change a fact, those whose name begins with `known`, and `owned`, `local`, `reason` and `settle_from`.
#[derive(Drop)]
pub struct Tables {
    base: Vec<Prio>,
    protocol: Vec<Protocol>,
    owner: Vec<Option<TaskNo>>,
    count: Vec<u8>,
    wait: Vec<Option<Wait>>,
    owned: OwnedSets,
    pub(crate) stored: Vec<Prio>,
    pub(crate) queues: Queues,
    next: u64,
}

impl Model for Tables {
    ghost use Rattle.pim_chain.specs.Views.{View};

    ghost Value = { View };

    ghost use Rattle.pim_chain.specs.Shown.{shown, AreTables};

    ghost view = { shown };

    ghost invariant = { AreTables };
}

impl Tables {
    /// Makes the tables of these tasks and mutexes: all mutexes are free, no task waits, each stored priority is the
    /// base, and the next ticket is 1.
    ///
    /// # Errors
    ///
    /// Returns `AllocError` if out of memory.
    pub fn new(alloc: Global, bases: &[Prio], protocols: &[Protocol]) -> Result<Tables, AllocError>
        requires tasks { length bases.now ≤ MAX_TASKS }
        requires mutexes { length protocols.now ≤ MAX_MUTEXES }
        ensures made { IfOk result (λ tables. tables ≡ fresh bases.now protocols.now) }
        ensures calm { IfOk result Calm }
    {
        Ok(Tables {
            base: Vec::from_slice(alloc, bases)?,
            protocol: Vec::from_slice(alloc, protocols)?,
            owner: filled(alloc, protocols.len(), None)?,
            count: filled(alloc, protocols.len(), 0)?,
            wait: filled(alloc, bases.len(), None)?,
            owned: OwnedSets::new(alloc, bases.len())?,
            stored: Vec::from_slice(alloc, bases)?,
            queues: Queues::new(alloc, protocols.len(), bases.len() as u16)?,
            next: 1,
        })
    }

    /// Makes equal tables, stored priorities too.
    ///
    /// # Errors
    ///
    /// Returns `AllocError` if out of memory.
    pub fn try_clone(&self, alloc: Global) -> Result<Tables, AllocError>
        ensures { IfOk result (λ tables. tables ≡ self.now) }
    {
        Ok(Tables {
            base: Vec::from_slice(alloc, &self.base)?,
            protocol: Vec::from_slice(alloc, &self.protocol)?,
            owner: Vec::from_slice(alloc, &self.owner)?,
            count: Vec::from_slice(alloc, &self.count)?,
            wait: Vec::from_slice(alloc, &self.wait)?,
            owned: self.owned.try_clone(alloc)?,
            stored: Vec::from_slice(alloc, &self.stored)?,
            queues: self.queues.try_clone(alloc)?,
            next: self.next,
        })
    }

    /// Returns whether bases, protocols, owners, counts, waits with their tickets and the next ticket are those of the
    /// other tables. Reads each task and each mutex at most once.
    pub fn has_state_of(&self, other: &Tables) -> bool
        ensures { IsTrue result ↔ self.now.state ≡ other.now.state }
    {
        let ours = (
            &self.base,
            &self.protocol,
            &self.owner,
            &self.count,
            &self.wait,
            self.next,
        );
        let theirs = (
            &other.base,
            &other.protocol,
            &other.owner,
            &other.count,
            &other.wait,
            other.next,
        );
        ours == theirs
    }

    /// Returns the number of tasks, at most `MAX_TASKS`.
    pub fn tasks(&self) -> u16
        ensures count { result ≡ length self.now.state.base }
        ensures ready { Ready self.now }
    {
        self.base.len() as u16
    }

    /// Returns the number of mutexes, at most `MAX_MUTEXES`.
    pub fn mutexes(&self) -> u16
        ensures count { result ≡ length self.now.state.protocol }
        ensures ready { Ready self.now }
    {
        self.protocol.len() as u16
    }

    /// Returns the base priority of the task, `None` for an unknown one.
    pub fn base(&self, task: TaskNo) -> Option<Prio>
        ensures { result ≡ nth self.now.state.base task }
    {
        nth(&self.base, task.get())
    }

    /// Returns the protocol of the mutex, `None` for an unknown one.
    pub fn protocol(&self, mutex: MutexNo) -> Option<Protocol>
        ensures { result ≡ nth self.now.state.protocol mutex }
    {
        nth(&self.protocol, mutex.get())
    }

    /// Returns the ceiling of a PROTECT mutex, `None` for any other one.
    pub fn ceiling(&self, mutex: MutexNo) -> Option<Prio>
        ensures { result ≡ ceiling (protocol_of self.now.state mutex) }
    {
        self.protocol(mutex)?.ceiling()
    }

    /// Returns the owner of the mutex, `None` where it is free or unknown.
    #[tactic(auto, using(crate::proofs::Known::none_at_unknown))]
    pub fn owner(&self, mutex: MutexNo) -> Option<TaskNo>
        ensures { result ≡ owner_of self.now.state mutex }
    {
        // The contract of this call gives the proof the invariant of the tables.
        let _tasks = self.tasks();
        if self.is_unknown_mutex(mutex) {
            return None;
        }
        self.known_owner(mutex)
    }

    /// Returns how often its owner has locked the mutex and not yet unlocked it, 0 of a free one, `None` for an
    /// unknown one.
    pub fn count(&self, mutex: MutexNo) -> Option<u16>
        ensures { result ≡ nth self.now.state.count mutex }
    {
        nth(&self.count, mutex.get()).map(|count| count as u16)
    }

    /// Returns the owner of a known INHERIT mutex, which gets the priority of those that wait for it, `None` for any
    /// other one.
    pub(crate) fn heir_of(&self, mutex: MutexNo) -> Option<TaskNo>
        requires { IsMutex self.now.state mutex }
        ensures { result ≡ heir_of self.now.state mutex }
    {
        match self.known_protocol(mutex) {
            Protocol::Inherit | Protocol::InheritRecursive => self.known_owner(mutex),
            Protocol::None | Protocol::Protect(_) => None,
        }
    }

    /// Returns the mutexes that a known task owns, in ascending order.
    #[tactic(auto, using(crate::proofs::Owning::owned_members))]
    pub fn owned(&self, task: TaskNo) -> Owned<'_>
        requires { IsTask self.now.state task }
        ensures { result ≡ owned self.now.state task }
    {
        Owned::new(self.owned.of(task))
    }

    /// Returns the set of the mutexes that a known task owns.
    #[tactic(auto, using(crate::proofs::Owning::owned_members))]
    pub fn owned_set(&self, task: TaskNo) -> NumberSet
        requires { IsTask self.now.state task }
        ensures { members result.words ≡ owned self.now.state task }
    {
        *self.owned.of(task)
    }

    /// Returns the next ticket.
    pub fn next_ticket(&self) -> u64
        ensures { result ≡ self.now.state.next }
    {
        self.next
    }

    /// Returns the mutex that the task waits for, with its ticket there, `None` where it waits for nothing or is
    /// unknown.
    #[tactic(auto, using(crate::proofs::Known::none_at_unknown))]
    pub fn waits_for(&self, task: TaskNo) -> Option<Wait>
        ensures { result ≡ wait_of self.now.state task }
    {
        // The contract of this call gives the proof the invariant of the tables.
        let _tasks = self.tasks();
        if self.is_unknown_task(task) {
            return None;
        }
        self.known_wait(task)
    }

    /// Returns the stored priority of the task, `None` for an unknown one.
    pub fn stored(&self, task: TaskNo) -> Option<Prio>
        ensures { result ≡ nth self.now.stored task }
    {
        nth(&self.stored, task.get())
    }

    /// Returns the queue of the mutex, `None` for an unknown one. Its waiters are promised, and not its room.
    pub fn queue(&self, mutex: MutexNo) -> Option<&Queue>
        ensures { option_map (λ (q : QueueView). q.waiters) (option_copied result) ≡ option_map (λ (q : QueueView). q.waiters) (nth self.now.queues mutex) }
    {
        self.queues.get(mutex)
    }

    /// Returns the base priority of a known task.
    pub fn known_base(&self, task: TaskNo) -> Prio
        requires { IsTask self.now.state task }
        ensures { result ≡ base_of self.now.state task }
    {
        self.base[task.get() as usize - 1]
    }

    /// Returns the stored priority of a known task.
    pub fn known_stored(&self, task: TaskNo) -> Prio
        requires { IsTask self.now.state task }
        ensures { result ≡ stored_at self.now task }
    {
        self.stored[task.get() as usize - 1]
    }

    /// Returns how often its owner has locked the mutex, 0 of a free or an unknown one.
    pub fn count_of(&self, mutex: MutexNo) -> u8
        ensures { result ≡ count_of self.now.state mutex }
    {
        nth(&self.count, mutex.get()).unwrap_or(0)
    }

    /// Returns the owner of a known mutex, `None` where it is free.
    pub fn known_owner(&self, mutex: MutexNo) -> Option<TaskNo>
        requires { IsMutex self.now.state mutex }
        ensures { result ≡ owner_of self.now.state mutex }
    {
        // The contract of this call gives the proof the invariant of the tables.
        let _tasks = self.tasks();
        self.owner[mutex.get() as usize - 1]
    }

    /// Returns the protocol of a known mutex.
    pub fn known_protocol(&self, mutex: MutexNo) -> Protocol
        requires { IsMutex self.now.state mutex }
        ensures { result ≡ protocol_of self.now.state mutex }
    {
        self.protocol[mutex.get() as usize - 1]
    }

    /// Returns the mutex that a known task waits for, with its ticket there, `None` where it waits for nothing.
    pub fn known_wait(&self, task: TaskNo) -> Option<Wait>
        requires { IsTask self.now.state task }
        ensures { result ≡ wait_of self.now.state task }
    {
        // The contract of this call gives the proof the invariant of the tables.
        let _tasks = self.tasks();
        self.wait[task.get() as usize - 1]
    }

    /// Returns the first waiter for a known mutex, `None` where no task waits.
    pub fn known_first(&self, mutex: MutexNo) -> Option<Waiter>
        requires { IsMutex self.now.state mutex }
        ensures { result ≡ first_item (queue_at self.now mutex) }
    {
        // The contract of this call gives the proof the invariant of the tables.
        let _tasks = self.tasks();
        self.queues.known_first(mutex)
    }

    /// Returns the known task as a waiter with this ticket.
    pub(crate) fn waiter(&self, task: TaskNo, ticket: u64) -> Waiter
        requires { IsTask self.now.state task }
        ensures { result ≡ waiter_at self.now task ticket }
    {
        let prio = self.known_stored(task);
        Waiter { task, prio, ticket }
    }

    /// Sets the next ticket.
    pub fn put_next_ticket(&mut self, ticket: u64)
        ensures state { self.new ≡ with_state self.old (record self.old.state { next = ticket }) }
        ensures unsettles { Unsettles self.old self.new None }
        ensures ready { Ready self.new }
    {
        self.next = ticket;
    }

    /// Makes the task, which must wait for nothing, the owner of the mutex, which must be free.
    #[inline(always)]
    pub fn bind(&mut self, mutex: MutexNo, task: TaskNo)
        requires mutex { IsMutex self.old.state mutex }
        requires free { owner_of self.old.state mutex ≡ None }
        requires known { IsTask self.old.state task }
        requires idle { wait_of self.old.state task ≡ None }
        ensures state { self.new ≡ with_state self.old (with_owner self.old.state mutex (Some task)) }
        ensures unsettles { Unsettles self.old self.new (Some task) }
        ensures ready { Ready self.new }
    {
        self.put_owner(mutex, task);
    }

    /// Makes the task, which may wait, the owner of the mutex, which must be free, have no waiters and be no PROTECT
    /// one. So it gives the task no priority, and no chain leads through it.
    #[inline(always)]
    pub fn adopt(&mut self, mutex: MutexNo, task: TaskNo)
        requires mutex { IsMutex self.old.state mutex }
        requires free { owner_of self.old.state mutex ≡ None }
        requires unawaited { IsUnawaited self.old.state mutex }
        requires plain { is_protect self.old.state mutex ≡ false }
        requires known { IsTask self.old.state task }
        ensures state { self.new ≡ with_state self.old (with_owner self.old.state mutex (Some task)) }
        ensures unsettles { Unsettles self.old self.new None }
        ensures ready { Ready self.new }
    {
        self.put_owner(mutex, task);
    }

    // Makes the task the owner of the mutex, which must be free, where that closes no cycle of waits.
    #[inline(always)]
    fn put_owner(&mut self, mutex: MutexNo, task: TaskNo)
        requires mutex { IsMutex self.old.state mutex }
        requires free { owner_of self.old.state mutex ≡ None }
        requires known { IsTask self.old.state task }
        requires sound { IsSound self.old.state → IsSound (with_owner self.old.state mutex (Some task)) }
        ensures state { self.new ≡ with_state self.old (with_owner self.old.state mutex (Some task)) }
        ensures ready { Ready self.new }
    {
        put(&mut self.owner, mutex.get(), Some(task));
        put_first_count(&mut self.count, mutex, Some(task));
        self.owned.insert(task, mutex);
    }

    /// Makes the mutex, which must be owned, free.
    pub fn unbind(&mut self, mutex: MutexNo)
        requires owned { owner_of self.old.state mutex ≢ None }
        ensures state { self.new ≡ with_state self.old (with_owner self.old.state mutex None) }
        ensures unsettles { Unsettles self.old self.new (owner_of self.old.state mutex) }
        ensures ready { Ready self.new }
    {
        if let Some(owner) = self.owner(mutex) {
            self.unbind_from(mutex, owner);
        }
    }

    /// Makes the mutex, whose owner must be this task, free.
    #[inline(always)]
    pub(crate) fn unbind_from(&mut self, mutex: MutexNo, owner: TaskNo)
        requires { owner_of self.old.state mutex ≡ Some owner }
        ensures state { self.new ≡ with_state self.old (with_owner self.old.state mutex None) }
        ensures unsettles { Unsettles self.old self.new (owner_of self.old.state mutex) }
        ensures ready { Ready self.new }
    {
        // The contract of this call gives the proof the invariant of the tables.
        let _tasks = self.tasks();
        put(&mut self.owner, mutex.get(), None);
        put_first_count(&mut self.count, mutex, None);
        self.owned.remove(owner, mutex);
    }

    /// Counts one more lock of the mutex, which must be recursive, owned and locked less than `MAX_COUNT` times.
    pub fn count_up(&mut self, mutex: MutexNo)
        requires owned { owner_of self.old.state mutex ≢ None }
        requires recursive { is_recursive (protocol_of self.old.state mutex) ≡ true }
        requires few { count_of self.old.state mutex < MAX_COUNT }
        ensures state { self.new ≡ with_state self.old (with_count self.old.state mutex (count_of self.old.state mutex + 1)) }
        ensures unsettles { Unsettles self.old self.new None }
        ensures ready { Ready self.new }
    {
        let count = self.count_of(mutex);
        put(&mut self.count, mutex.get(), count + 1);
    }

    /// Takes back one lock of the mutex, which must be recursive and locked more than once.
    pub fn count_down(&mut self, mutex: MutexNo)
        requires recursive { is_recursive (protocol_of self.old.state mutex) ≡ true }
        requires more { 1 < count_of self.old.state mutex }
        ensures state { self.new ≡ with_state self.old (with_count self.old.state mutex (count_of self.old.state mutex - 1)) }
        ensures unsettles { Unsettles self.old self.new None }
        ensures ready { Ready self.new }
    {
        let count = self.count_of(mutex);
        put(&mut self.count, mutex.get(), count - 1);
    }

    /// Gives the task this base priority.
    pub fn put_base(&mut self, task: TaskNo, prio: Prio)
        requires { IsTask self.old.state task }
        ensures state { self.new ≡ with_state self.old (with_base self.old.state task prio) }
        ensures unsettles { Unsettles self.old self.new (Some task) }
        ensures ready { Ready self.new }
    {
        put(&mut self.base, task.get(), prio);
    }

    /// Gives the mutex, which must be a PROTECT one, this ceiling.
    pub fn put_ceiling(&mut self, mutex: MutexNo, ceiling: Prio)
        requires { not_protect self.old.state mutex ≡ false }
        ensures state { self.new ≡ with_state self.old (with_ceiling self.old.state mutex ceiling) }
        ensures unsettles { Unsettles self.old self.new (owner_of self.old.state mutex) }
        ensures ready { Ready self.new }
    {
        put(&mut self.protocol, mutex.get(), Protocol::Protect(ceiling));
    }

    /// Gives the mutex, which must be free, this protocol.
    pub fn put_protocol(&mut self, mutex: MutexNo, protocol: Protocol)
        requires known { IsMutex self.old.state mutex }
        requires free { owner_of self.old.state mutex ≡ None }
        ensures state { self.new ≡ with_state self.old (with_protocol self.old.state mutex protocol) }
        ensures unsettles { Unsettles self.old self.new None }
        ensures ready { Ready self.new }
    {
        put(&mut self.protocol, mutex.get(), protocol);
    }

    /// Lets the task, which must wait for nothing, wait for the mutex with this ticket, which no other waiter there
    /// may have. The wait must close no cycle. The next ticket stays.
    ///
    /// Shifts the waiters behind its place in the queue.
    // Not inlined: the search and the shift use all registers, and a step keeps its own over the call.
    #[inline(never)]
    pub fn join(&mut self, task: TaskNo, mutex: MutexNo, ticket: u64)
        requires known { IsTask self.old.state task }
        requires mutex { IsMutex self.old.state mutex }
        requires idle { wait_of self.old.state task ≡ None }
        requires closes_none { leads_back self.old.state task mutex ≡ false }
        requires fresh { (u : ℕ) → wait_of self.old.state u ≢ Some (record { mutex = mutex; ticket = ticket }) }
        ensures joined { self.new ≡ joined self.old task (record { mutex = mutex; ticket = ticket }) }
        ensures unsettles { Unsettles self.old self.new (owner_of self.old.state mutex) }
        ensures ready { Ready self.new }
    {
        let waiter = self.waiter(task, ticket);
        self.queues.insert(mutex, waiter);
        put(&mut self.wait, task.get(), Some(Wait { mutex, ticket }));
    }

    /// Lets the task, which must wait, stop waiting.
    ///
    /// Shifts the waiters behind its place in the queue.
    #[inline(always)]
    pub fn leave(&mut self, task: TaskNo)
        requires { wait_of self.old.state task ≢ None }
        ensures left { (w : Wait) → wait_of self.old.state task ≡ Some w → self.new ≡ left self.old task w.mutex }
        ensures unsettles { Unsettles self.old self.new (blocker self.old.state task) }
        ensures ready { Ready self.new }
    {
        if let Some(wait) = self.waits_for(task) {
            self.end_wait(task, wait.mutex, wait.ticket);
        }
    }

    // Lets the task stop waiting for this mutex with this ticket.
    #[inline(always)]
    pub(crate) fn end_wait(&mut self, task: TaskNo, mutex: MutexNo, ticket: u64)
        requires { wait_of self.old.state task ≡ Some (record { mutex = mutex; ticket = ticket }) }
        ensures left { self.new ≡ left self.old task mutex }
        ensures unsettles { Unsettles self.old self.new (blocker self.old.state task) }
        ensures ready { Ready self.new }
    {
        // The contract of this call gives the proof the invariant of the tables.
        let _tasks = self.tasks();
        let leaver = self.waiter(task, ticket);
        self.queues.remove(mutex, &leaver);
        put(&mut self.wait, task.get(), None);
    }
}

// Writes how often the mutex is locked now: once by a new owner, and not at all where it is free.
#[inline(always)]
fn put_first_count(counts: &mut Vec<u8>, mutex: MutexNo, owner: Option<TaskNo>)
    requires least { 1 ≤ mutex }
    requires most { mutex ≤ length counts.old.items }
    ensures { counts.new.items ≡ put counts.old.items mutex (first_count owner) }
{
    let count = match owner {
        Some(_) => 1,
        None => 0,
    };
    put(counts, mutex.get(), count);
}
