//! Threads that wait for each other.

ghost use Rattle.std.specs.Prelude.{◌≡◌, ◌≤◌, ◌<◌, ◌^◌, ◌+◌, [], true, false, ℕ, length, IfSome};
ghost use Rattle.std.specs.Prelude.{OnOk, OnErr, slice_get};
ghost use Rattle.pim_base.specs.Lists.{contains};
ghost use Rattle.pim_waits.specs.Members.{Members, Extends, is_marked};

use crate::place::{ThreadPlace, nth, put};
use std::alloc::{AllocError, Global};
use std::marker::Model;

/// The threads of a component as they are gathered, each once.
///
/// It is used for each change again, since new marks would cost something for all threads.
#[derive(Drop)]
pub(crate) struct Component {
    members: Vec<ThreadPlace>,
    /// For each thread whether it is a member.
    marks: Vec<bool>,
}

impl Model for Component {
    ghost use Rattle.pim_waits.specs.Members.{Members};

    ghost Value = { Members };

    ghost use Rattle.pim_waits.specs.Marked.{members_of, AreMarked};

    ghost view = { members_of };

    ghost invariant = { AreMarked };
}

impl Component {
    /// Returns a component without members, and without room for any.
    pub fn new(alloc: Global) -> Component
        ensures { result ≡ record { threads = []; room = 0 } }
    {
        Component {
            members: Vec::new(alloc),
            marks: Vec::new(alloc),
        }
    }

    /// Removes all members, and makes room for this many threads. Reads each member, and adds a
    /// mark for each thread for which there was no room.
    ///
    /// # Errors
    ///
    /// Returns `AllocError` if out of memory.
    pub fn start(&mut self, threads: usize) -> Result<(), AllocError>
        requires { self.old.room ≤ threads }
        ensures ok { OnOk result (self.new ≡ record { threads = []; room = threads }) }
        ensures room { self.new.room ≤ threads }
    {
        self.clear();
        for _thread in self.marks.len()..threads {
            self.add_room()?;
        }
        Ok(())
    }

    /// Makes room for one thread more.
    ///
    /// # Errors
    ///
    /// Returns `AllocError` if out of memory.
    fn add_room(&mut self) -> Result<(), AllocError>
        ensures ok { OnOk result (self.new ≡ record self.old { room = self.old.room + 1 }) }
        ensures err { OnErr result (self.new ≡ self.old) }
    {
        self.marks.reserve(1)?;
        self.marks.push_reserved(false);
        Ok(())
    }

    /// Removes all members.
    fn clear(&mut self)
        ensures { self.new ≡ record { threads = []; room = self.old.room } }
    {
        unmark(&mut self.marks, &self.members);
        self.members.clear();
    }

    /// Makes a thread a member, if there is room for it.
    ///
    /// # Errors
    ///
    /// Returns `AllocError` if out of memory. The members are as they were.
    pub fn add(&mut self, thread: ThreadPlace) -> Result<(), AllocError>
        ensures extends { OnOk result (Extends self.old self.new) }
        ensures added { OnOk result
            (1 ≤ thread → thread ≤ self.old.room → contains self.new.threads thread ≡ true) }
        ensures err { OnErr result (self.new ≡ self.old) }
    {
        match nth(&self.marks, thread.0) {
            Some(false) => {}
            Some(true) | None => return Ok(()),
        }
        if self.members.push(thread).is_err() {
            return Err(AllocError);
        }
        put(&mut self.marks, thread.0, true);
        Ok(())
    }

    /// Returns the member at this place, from 0 on.
    pub fn get(&self, place: usize) -> Option<ThreadPlace>
        ensures value { result ≡ slice_get self.now.threads place }
        ensures few { length self.now.threads ≤ self.now.room }
        ensures small { length self.now.threads < 2 ^ 63 }
    {
        self.members.get(place).copied()
    }

    /// Returns the members.
    pub fn members(&self) -> &[ThreadPlace]
        ensures value { result.now ≡ self.now.threads }
        ensures known { (t : ℕ) → contains result.now t ≡ true → (1 ≤ t) × (t ≤ self.now.room) }
    {
        &self.members
    }
}

/// Removes the marks of these threads.
fn unmark(marks: &mut Vec<bool>, threads: &[ThreadPlace])
    ensures len { length marks.new.items ≡ length marks.old.items }
    ensures none { ((t : ℕ) → is_marked marks.old.items t ≡ contains threads.now t)
        → (t : ℕ) → is_marked marks.new.items t ≡ false }
{
    for thread in threads {
        put(marks, thread.0, false);
    }
}
