//! A manager behind one lock.

ghost use Rattle.std.specs.Prelude.{◌≡◌, ◌<◌, ◌⊎◌, IfOk, IfErr, IsErrOf};
ghost use mathlib.Core.List.{IsPrefix};
ghost use Rattle.std.specs.Vec.{vec_len};
ghost use Rattle.pim_base.specs.Runs.{IsRun};
ghost use Rattle.pim_shared.specs.Books.{IsCallFault};
ghost use Rattle.pim_shared.specs.Lookers.{HaveSeenNothing, EndsWithNew};
ghost use Rattle.pim_shared.specs.Publishers.{unpublished};
ghost use Rattle.pim_base.specs.declared.limits.TheConstants.{MAX_LOOKERS};

use crate::SharedFault;
use crate::book::Book;
use crate::gate::{Gate, Settled};
use crate::log::Log;
use crate::looker::Looker;
use crate::publisher::Publisher;
use pim_base::{MAX_LOOKERS, MutexNo, Reply, Step, TaskNo};
use pim_manager::Manager;
use std::alloc::Global;
use std::sync::{Condvar, Mutex, Wait};

/// A manager that many threads call, one at a time, and that wait-free readers read without the lock.
///
/// It isn't `Drop`: only `finish` ends it.
pub struct Shared {
    book: Mutex<Book>,
    changed: Condvar,
}

impl Shared {
    /// Returns a shared manager that starts in the state of `manager`, and `lookers` wait-free readers of it. Its log is
    /// empty and has room for `room` entries.
    ///
    /// # Errors
    ///
    /// `NoPlace` above `MAX_LOOKERS`, else `Memory` if out of memory. `NoPlace` also if a reader gets no place.
    pub fn new<R: Wait>(
        rt: &R,
        alloc: Global,
        manager: Manager,
        room: usize,
        lookers: u16,
    ) -> Result<(Shared, Vec<Looker>), SharedFault>
        ensures count { IfOk result (λ made. vec_len made.1 ≡ lookers) }
        ensures lookers { IfOk result (λ made. HaveSeenNothing manager made.1.items) }
        ensures most { MAX_LOOKERS < lookers → IsErrOf result SharedFault.NoPlace }
        ensures refused { IfErr result (λ fault. (fault ≡ SharedFault.Memory) ⊎ (fault ≡ SharedFault.NoPlace)) }
    {
        if lookers > MAX_LOOKERS {
            return Err(SharedFault::NoPlace);
        }
        let start = manager.try_clone(alloc)?;
        let entries = Vec::with_capacity(alloc, room)?;
        let (publisher, lookers) = started(rt, alloc, manager, lookers)?;
        let book = Book::new(start, entries, room, publisher);
        let shared = Shared {
            book: Mutex::new(book),
            changed: Condvar::new(),
        };
        Ok((shared, lookers))
    }

    /// Makes one step under the lock by `Book::call`, and returns its reply.
    ///
    /// It waits for the calls of other threads, and for readers that still use the version before the last one. No contract
    /// can say what it does to the book, which other threads may change as soon as the lock is free. Tests show it.
    ///
    /// # Errors
    ///
    /// Those of `Book::call`. After an error, too, all threads in `settle` are woken.
    pub fn call<R: Wait>(&self, rt: &R, step: Step) -> Result<Reply, SharedFault>
        ensures refused { IfErr result IsCallFault }
    {
        let mut book = self.book.lock(rt);
        let answer = book.call(rt, step);
        self.changed.notify_all();
        answer
    }

    /// Makes one step under the lock by `Book::call_with`, whose reader reads before another call can be made.
    ///
    /// # Errors
    ///
    /// Those of `call`: then the reader reads nothing. `NoPlace` if the version that it reads has no more entries than it
    /// has seen, or doesn't end with this step and reply, as for a reader of another shared manager: then the step was
    /// made and logged all the same.
    pub fn call_with<R: Wait>(
        &self,
        rt: &R,
        looker: &mut Looker,
        step: Step,
    ) -> Result<Reply, SharedFault>
        ensures start { looker.new.start ≡ looker.old.start }
        ensures grown { IsPrefix looker.old.entries looker.new.entries }
        ensures seen { IfOk result (λ reply.
            EndsWithNew looker.old looker.new (record { step = step; reply = reply })) }
        ensures refused { IfErr result (λ fault.
            (fault ≡ SharedFault.NoPlace) ⊎ (IsCallFault fault × (looker.new ≡ looker.old))) }
    {
        let mut book = self.book.lock(rt);
        let answer = book.call_with(rt, looker, step);
        self.changed.notify_all();
        answer
    }

    /// Blocks while the task waits, and then returns whether it owns the mutex.
    ///
    /// # Errors
    ///
    /// `Closed` if the task waits and all further calls are refused, so that no call can end its wait.
    pub fn settle<R: Wait>(
        &self,
        rt: &R,
        task: TaskNo,
        mutex: MutexNo,
    ) -> Result<Settled, SharedFault>
        ensures { IfErr result (λ fault. fault ≡ SharedFault.Closed) }
    {
        let book = self.changed.wait_while(rt, self.book.lock(rt), |book| {
            book.settled(task, mutex).is_none() && !book.is_closed()
        });
        book.settled(task, mutex).ok_or(SharedFault::Closed)
    }

    /// Returns the manager and the log, whose entries are a run of the model from its start. Later reads return `Closed`.
    ///
    /// It waits for readers in a read.
    pub fn finish<R: Wait>(self, rt: &R) -> (Manager, Log)
        ensures { IsRun result.1.start result.1.entries result.0 }
    {
        let Shared { book, changed: _ } = self;
        book.into_inner().end(rt)
    }
}

/// Returns a publisher that starts in the state of `manager`, and `count` readers of it.
fn started<R: Wait>(
    rt: &R,
    alloc: Global,
    manager: Manager,
    count: u16,
) -> Result<(Publisher, Vec<Looker>), SharedFault>
    ensures publisher { IfOk result (λ made. made.0 ≡ unpublished manager) }
    ensures count { IfOk result (λ made. vec_len made.1 ≡ count) }
    ensures lookers { IfOk result (λ made. HaveSeenNothing manager made.1.items) }
    ensures refused { IfErr result (λ fault. (fault ≡ SharedFault.Memory) ⊎ (fault ≡ SharedFault.NoPlace)) }
{
    let second = manager.try_clone(alloc)?;
    let publisher = Publisher::new(rt, alloc, manager, second, count)?;
    with_lookers(rt, alloc, publisher, count)
}

/// Returns the publisher, and `count` readers of it. It ends the publisher if one of them can't be made.
fn with_lookers<R: Wait>(
    rt: &R,
    alloc: Global,
    publisher: Publisher,
    count: u16,
) -> Result<(Publisher, Vec<Looker>), SharedFault>
    ensures publisher { IfOk result (λ made. made.0 ≡ publisher) }
    ensures count { IfOk result (λ made. vec_len made.1 ≡ count) }
    ensures lookers { IfOk result (λ made. HaveSeenNothing publisher.start made.1.items) }
    ensures refused { IfErr result (λ fault. (fault ≡ SharedFault.Memory) ⊎ (fault ≡ SharedFault.NoPlace)) }
{
    let mut publisher = publisher;
    match lookers_of(&mut publisher, alloc, count) {
        Ok(lookers) => Ok((publisher, lookers)),
        Err(fault) => {
            publisher.end(rt);
            Err(fault)
        }
    }
}

/// Returns `count` readers that have seen no entry.
fn lookers_of(
    publisher: &mut Publisher,
    alloc: Global,
    count: u16,
) -> Result<Vec<Looker>, SharedFault>
    ensures same { publisher.new ≡ publisher.old }
    ensures count { IfOk result (λ lookers. vec_len lookers ≡ count) }
    ensures lookers { IfOk result (λ lookers. HaveSeenNothing publisher.old.start lookers.items) }
    ensures refused { IfErr result (λ fault. (fault ≡ SharedFault.Memory) ⊎ (fault ≡ SharedFault.NoPlace)) }
{
    let mut lookers = Vec::with_capacity(alloc, usize::from(count))?;
    for _ in 0..count {
        let Ok(looker) = publisher.looker() else {
            return Err(SharedFault::NoPlace);
        };
        lookers.push_reserved(looker);
    }
    Ok(lookers)
}

impl Gate for Shared {
    fn call<R: Wait>(&self, rt: &R, step: Step) -> Result<Reply, SharedFault> {
        Shared::call(self, rt, step)
    }

    fn settle<R: Wait>(
        &self,
        rt: &R,
        task: TaskNo,
        mutex: MutexNo,
    ) -> Result<Settled, SharedFault> {
        Shared::settle(self, rt, task, mutex)
    }
}
