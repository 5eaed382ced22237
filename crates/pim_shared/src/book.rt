//! What the lock guards.

ghost use Rattle.std.specs.Prelude.{◌≡◌, ◌≤◌, ◌⊎◌, [], false, length, IfOk, IfErr};
ghost use Rattle.std.specs.Vec.{vec_capacity};
ghost use mathlib.Core.List.{IsPrefix};
ghost use Rattle.pim_base.specs.Chains.{HasCycle};
ghost use Rattle.pim_base.specs.Runs.{IsRun};
ghost use Rattle.pim_base.specs.Steady.{IsSteady};
ghost use Rattle.pim_shared.specs.Books.{IsCall, IsCallWith, IsCallFault, settled_of};
ghost use Rattle.pim_shared.specs.Lookers.{EndsWithNew};
ghost use Rattle.pim_shared.specs.Publishers.{unpublished};

use crate::SharedFault;
use crate::gate::Settled;
use crate::log::Log;
use crate::looker::Looker;
use crate::publisher::Publisher;
use crate::version::entry;
use pim_base::{Entry, MutexNo, Reply, Step, TaskNo};
use pim_manager::Manager;
use std::marker::Model;
use std::sync::Wait;

/// A manager and its log, as they are whenever the lock is free.
///
/// Its value in contracts is the start state, the current state, the entries between, the room for them and whether all
/// further calls are refused. The type keeps that the entries are a run of the model from the start to the current state,
/// that they don't exceed the room, and that they are the published list. The manager's type keeps that there is never a
/// cycle of waits, that each queue is in order, and that each stored priority is the effective one.
pub struct Book {
    start: Manager,
    entries: Vec<Entry>,
    room: usize,
    closed: bool,
    /// The current manager is that of the published version, so each step is made on two copies and not on three.
    publisher: Publisher,
}

impl Model for Book {
    ghost use Rattle.std.specs.Vec.{vec_capacity};
    ghost use Rattle.pim_shared.specs.Books.{BookState, IsBook, book_of};

    ghost Value = { BookState };

    ghost view = { λ b. book_of b.start b.publisher.state b.entries.items b.room b.closed };

    ghost invariant = { λ b. IsBook
        (book_of b.start b.publisher.state b.entries.items b.room b.closed)
        (vec_capacity b.entries)
        b.publisher };
}

impl Book {
    /// Returns an open book of a manager at its start, with an empty log.
    pub(crate) fn new(
        start: Manager,
        entries: Vec<Entry>,
        room: usize,
        publisher: Publisher,
    ) -> Book
        requires room { (entries.items ≡ []) × (room ≤ vec_capacity entries) }
        requires publisher { publisher ≡ unpublished start }
        ensures { result ≡ record { start = start; manager = start; entries = []; room = room; closed = false } }
    {
        Book {
            start,
            entries,
            room,
            closed: false,
            publisher,
        }
    }

    /// Makes one step, logs it with its reply, and publishes it to the readers. Nothing else changes a book.
    ///
    /// It waits for readers that still use the version before the last one.
    ///
    /// # Errors
    ///
    /// `Closed` if it is closed, else `Full` if the log has no room left, else `Memory` if out of memory. Then manager and
    /// log are unchanged, and the book is closed.
    pub fn call<R: Wait>(&mut self, rt: &R, step: Step) -> Result<Reply, SharedFault>
        ensures { IsCall self.old step result self.new }
    {
        if self.closed {
            return Err(SharedFault::Closed);
        }
        if self.entries.len() >= self.room {
            self.closed = true;
            return Err(SharedFault::Full);
        }
        let step = &step;
        if self.publisher.append(*step).is_err() {
            self.closed = true;
            return Err(SharedFault::Memory);
        }
        self.publisher.publish(rt);
        let Some(last) = &self.publisher.last() else {
            unreachable!()
        };
        self.entries.push_reserved(entry(last.step, last.reply));
        Ok(last.reply)
    }

    /// Makes one step by `call`, and then reads the published version with the reader.
    ///
    /// # Errors
    ///
    /// Those of `call`: then the reader reads nothing. `NoPlace` if the version that it reads has no more entries than it
    /// has seen, or doesn't end with this step and reply: then the step was made and logged all the same.
    pub(crate) fn call_with<R: Wait>(
        &mut self,
        rt: &R,
        looker: &mut Looker,
        step: Step,
    ) -> Result<Reply, SharedFault>
        ensures made { IsCallWith self.old step result self.new }
        ensures start { looker.new.start ≡ looker.old.start }
        ensures grown { IsPrefix looker.old.entries looker.new.entries }
        ensures seen { IfOk result (λ reply.
            EndsWithNew looker.old looker.new (record { step = step; reply = reply })) }
        ensures refused { IfErr result (λ fault.
            (fault ≡ SharedFault.NoPlace) ⊎ (IsCallFault fault × (looker.new ≡ looker.old))) }
    {
        let step = &step;
        let reply = &self.call(rt, *step)?;
        if looker.finds(entry(*step, *reply)) {
            Ok(*reply)
        } else {
            Err(SharedFault::NoPlace)
        }
    }

    /// Returns the current manager, which is the result of a run of the model: from the start, by the logged entries.
    /// Its getters return queues in order and effective priorities.
    pub fn manager(&self) -> &Manager
        ensures manager { result.now ≡ self.now.manager }
        ensures run { IsRun self.now.start self.now.entries self.now.manager }
        ensures steady { IsSteady self.now.manager }
        ensures no_cycle { ¬ HasCycle self.now.manager }
    {
        // By its contract the proof knows that the state is steady.
        let manager = self.publisher.manager();
        let _steady = manager.tasks();
        manager
    }

    /// Returns the entries since the start, at most as many as there is room for.
    pub fn entries(&self) -> &[Entry]
        ensures entries { result.now ≡ self.now.entries }
        ensures within_room { length self.now.entries ≤ self.now.room }
    {
        self.entries.as_slice()
    }

    /// Returns whether all further calls are refused.
    pub fn is_closed(&self) -> bool
        ensures { result ≡ self.now.closed }
    {
        self.closed
    }

    /// Returns None while the task waits, else whether it owns the mutex. An unknown task doesn't wait and owns nothing,
    /// and an unknown mutex has no owner.
    pub fn settled(&self, task: TaskNo, mutex: MutexNo) -> Option<Settled>
        ensures { result ≡ settled_of self.now.manager task mutex }
    {
        let manager = self.manager();
        let waits = manager.waits_for(task).flatten().is_some();
        let owner = manager.owner(mutex).flatten();
        if waits {
            None
        } else if owner == Some(task) {
            Some(Settled::Owns)
        } else {
            Some(Settled::Withdrawn)
        }
    }

    /// Ends the publishing, and returns the manager and the log.
    pub(crate) fn end<R: Wait>(self, rt: &R) -> (Manager, Log)
        ensures manager { result.0 ≡ self.manager }
        ensures log { (result.1.start ≡ self.start) × (result.1.entries ≡ self.entries) }
        ensures run { IsRun self.start self.entries self.manager }
    {
        let Book {
            start,
            entries,
            room: _,
            closed: _,
            publisher,
        } = self;
        let manager = publisher.end(rt);
        (manager, Log::new(start, entries))
    }
}
