//! What is owned and waited for, and the changes of one fact.

ghost use Rattle.std.specs.Prelude.{◌≡◌, ◌≤◌, ◌<◌, length, IfOk};
ghost use Rattle.pim_base.specs.Lists.{nth, put, holds};
ghost use Rattle.pim_base.specs.State.{start, IsTask, base_of, owner_of, count_of, wait_of, protocol_of, first_count};
ghost use Rattle.pim_base.specs.State.{with_owner, with_count, with_wait, with_base, with_ceiling, queued};
ghost use Rattle.pim_base.specs.Priorities.{ceiling};
ghost use Rattle.pim_base.specs.declared.limits.TheConstants.{MAX_TASKS, MAX_MUTEXES, LAST_TICKET};

use pim_base::{MutexNo, Prio, Protocol, TaskNo, Wait, nth};
use std::alloc::{AllocError, Global};
use std::marker::Model;

/// What is declared, owned, counted and waited for, and the next ticket: no stored priorities and no queues.
///
/// Its value in contracts is the state of the definitions. It answers every step, and computes each
/// chain, priority, queue and reason from scratch.
#[derive(Drop)]
pub struct PlainManager {
    base: Vec<Prio>,
    protocol: Vec<Protocol>,
    owner: Vec<Option<TaskNo>>,
    count: Vec<u8>,
    wait: Vec<Option<Wait>>,
    next: u64,
}

impl Model for PlainManager {
    ghost use Rattle.pim_base.specs.State.{State};
    ghost use Rattle.std.specs.Prelude.{◌≡◌, ◌≤◌, length};
    ghost use Rattle.pim_base.specs.declared.limits.TheConstants.{MAX_TASKS, MAX_MUTEXES};

    ghost Value = { State };

    ghost view = { λ p. record {
      base = p.base.items;
      protocol = p.protocol.items;
      owner = p.owner.items;
      count = p.count.items;
      wait = p.wait.items;
      next = p.next;
    } };

    ghost invariant = { λ p.
        (length p.base.items ≤ MAX_TASKS)
        × (length p.protocol.items ≤ MAX_MUTEXES)
        × (length p.wait.items ≡ length p.base.items)
        × (length p.owner.items ≡ length p.protocol.items)
        × (length p.count.items ≡ length p.protocol.items) };
}

impl PlainManager {
    /// Makes a manager of tasks with these bases and of mutexes with these protocols. All mutexes are free, nobody
    /// waits, and the first ticket is `next`.
    ///
    /// # Errors
    ///
    /// Returns `AllocError` if out of memory.
    pub fn new(
        alloc: Global,
        bases: &[Prio],
        protocols: &[Protocol],
        next: u64,
    ) -> Result<PlainManager, AllocError>
        requires tasks { length bases.now ≤ MAX_TASKS }
        requires mutexes { length protocols.now ≤ MAX_MUTEXES }
        ensures { IfOk result (λ plain. plain ≡ start bases.now protocols.now next) }
    {
        Ok(PlainManager {
            base: bases.to_vec(alloc)?,
            protocol: protocols.to_vec(alloc)?,
            owner: vec![in alloc; None; protocols.len()]?,
            count: vec![in alloc; 0; protocols.len()]?,
            wait: vec![in alloc; None; bases.len()]?,
            next,
        })
    }

    /// Returns the base of a task; `None` for an unknown one.
    pub fn base(&self, task: TaskNo) -> Option<Prio>
        ensures { result ≡ nth self.now.base task }
    {
        nth(&self.base, task.get())
    }

    /// Returns the protocol of a mutex; `None` for an unknown one.
    pub fn protocol(&self, mutex: MutexNo) -> Option<Protocol>
        ensures { result ≡ nth self.now.protocol mutex }
    {
        nth(&self.protocol, mutex.get())
    }

    /// Returns the ceiling of a PROTECT mutex; `None` for any other, and for an unknown one.
    pub fn ceiling(&self, mutex: MutexNo) -> Option<Prio>
        ensures { result ≡ ceiling (protocol_of self.now mutex) }
    {
        self.protocol(mutex)?.ceiling()
    }

    /// Returns the owner of a mutex; `None` for a free and for an unknown one.
    pub fn owner_of(&self, mutex: MutexNo) -> Option<TaskNo>
        ensures { result ≡ owner_of self.now mutex }
    {
        nth(&self.owner, mutex.get()).flatten()
    }

    /// Returns how often the owner of a mutex has locked it and not yet unlocked it, 0 of a free one; `None` for an
    /// unknown one.
    pub fn count(&self, mutex: MutexNo) -> Option<u16>
        ensures { result ≡ nth self.now.count mutex }
    {
        nth(&self.count, mutex.get()).map(|count| count as u16)
    }

    /// Returns the mutex that a task waits for, with its ticket; `None` where it doesn't wait, and for an unknown one.
    pub fn wait_of(&self, task: TaskNo) -> Option<Wait>
        ensures { result ≡ wait_of self.now task }
    {
        nth(&self.wait, task.get()).flatten()
    }

    /// Returns the number of tasks, at most `MAX_TASKS`.
    pub fn tasks(&self) -> u16
        ensures count { result ≡ length self.now.base }
        ensures few { result ≤ MAX_TASKS }
    {
        self.base.len() as u16
    }

    /// Returns the number of mutexes, at most `MAX_MUTEXES`.
    pub fn mutexes(&self) -> u16
        ensures count { result ≡ length self.now.protocol }
        ensures few { result ≤ MAX_MUTEXES }
    {
        self.protocol.len() as u16
    }

    /// Returns the ticket that the next waiter gets.
    pub fn next_ticket(&self) -> u64
        ensures { result ≡ self.now.next }
    {
        self.next
    }

    /// Returns whether the task owns the mutex.
    pub fn owns(&self, task: TaskNo, mutex: MutexNo) -> bool
        ensures { result ≡ holds (owner_of self.now mutex) task }
    {
        self.owner_of(mutex) == Some(task)
    }

    /// Returns how often the owner of a mutex has locked it and not yet unlocked it; 0 of a free and of an unknown one.
    pub(crate) fn count_of(&self, mutex: MutexNo) -> u8
        ensures { result ≡ count_of self.now mutex }
    {
        nth(&self.count, mutex.get()).unwrap_or(0)
    }

    /// Returns the base of a known task.
    pub(crate) fn base_of(&self, task: TaskNo) -> Prio
        requires { IsTask self.now task }
        ensures { result ≡ base_of self.now task }
    {
        self.base[task.get() as usize - 1]
    }

    /// Gives the mutex this owner, who has locked it once, or none; an unknown mutex changes nothing.
    pub(crate) fn put_owner(&mut self, mutex: MutexNo, owner: Option<TaskNo>)
        ensures { self.new ≡ with_owner self.old mutex owner }
    {
        put(&mut self.count, mutex.get(), first_count(&owner));
        put(&mut self.owner, mutex.get(), owner);
    }

    /// Gives the mutex this count; an unknown mutex changes nothing.
    pub(crate) fn put_count(&mut self, mutex: MutexNo, count: u8)
        ensures { self.new ≡ with_count self.old mutex count }
    {
        put(&mut self.count, mutex.get(), count);
    }

    /// Gives the task this base; an unknown task changes nothing.
    pub(crate) fn put_base(&mut self, task: TaskNo, prio: Prio)
        ensures { self.new ≡ with_base self.old task prio }
    {
        put(&mut self.base, task.get(), prio);
    }

    /// Makes the mutex a PROTECT mutex with this ceiling; an unknown mutex changes nothing.
    pub(crate) fn put_ceiling(&mut self, mutex: MutexNo, ceiling: Prio)
        ensures { self.new ≡ with_ceiling self.old mutex ceiling }
    {
        put(&mut self.protocol, mutex.get(), Protocol::Protect(ceiling));
    }

    /// Lets the task wait for the mutex with the next ticket, which rises by one; an unknown task doesn't wait.
    pub(crate) fn join(&mut self, task: TaskNo, mutex: MutexNo)
        requires { self.old.next ≤ LAST_TICKET }
        ensures { self.new ≡ queued self.old task mutex }
    {
        let wait = Wait {
            mutex,
            ticket: self.next,
        };
        put(&mut self.wait, task.get(), Some(wait));
        self.next += 1;
    }

    /// Ends the wait of the task, if it waits.
    pub(crate) fn leave(&mut self, task: TaskNo)
        ensures { self.new ≡ with_wait self.old task None }
    {
        put(&mut self.wait, task.get(), None);
    }
}

/// Returns how often a new owner has locked its mutex, and 0 without an owner.
fn first_count(owner: &Option<TaskNo>) -> u8
    ensures { result ≡ first_count owner.now }
{
    match owner {
        Some(_) => 1,
        None => 0,
    }
}

/// Puts the item at this number; changes nothing where the list has no such number.
fn put<T: Copy>(items: &mut [T], number: u16, item: T)
    ensures { items.new ≡ put items.old number item }
{
    if let Some(place) = (number as usize).checked_sub(1) {
        if place < items.len() {
            items[place] = item;
        }
    }
}
