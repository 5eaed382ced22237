//! How a wait for a mutex began.

ghost use Rattle.std.specs.Prelude.{◌≡◌, ℕ};
ghost use Rattle.std.specs.Option.{option_map_or};
ghost use Rattle.pim_base.specs.State.{owner_of, base_of};
ghost use Rattle.pim_world.specs.Standing.{thread_number};
ghost use Rattle.pim_waits.specs.Waiting.{gets};
ghost use Rattle.pim_world.specs.Held.{world_of};
ghost use Rattle.pim_rows.specs.Begun.{awaited, wait_at};

use pim_waits::{MutexPlace, ThreadPlace};
use pim_world::World;
use std::marker::Model;

/// How a wait for a mutex began.
#[derive(Clone, Copy)]
pub(crate) struct WaitStart {
    /// Its line.
    pub(crate) line: u64,
    /// The numbers of its thread and its mutex.
    pub(crate) thread: u64,
    pub(crate) mutex: u64,
    /// The clock, in nanoseconds.
    pub(crate) from: u64,
    /// The thread's level, and what it got.
    pub(crate) level: u64,
    pub(crate) gets: u64,
    /// The number and the level of the mutex's owner, and the line by which it came to own it. 0 if
    /// the mutex was free.
    pub(crate) owner: u64,
    pub(crate) owner_level: u64,
    pub(crate) grant: u64,
}

impl Model for WaitStart {
    ghost use Rattle.pim_rows.specs.Begun as spec;

    ghost Value = { spec.WaitStart };

    ghost view = { λ s.
        record {
          line = s.line;
          thread = s.thread;
          mutex = s.mutex;
          from = s.from;
          level = s.level;
          gets = s.gets;
          owner = s.owner;
          owner_level = s.owner_level;
          grant = s.grant;
        } };

    ghost inverse = { λ s.
        record {
          line = s.line;
          thread = s.thread;
          mutex = s.mutex;
          from = s.from;
          level = s.level;
          gets = s.gets;
          owner = s.owner;
          owner_level = s.owner_level;
          grant = s.grant;
        } };
}

impl WaitStart {
    /// Returns how the wait of a thread for a mutex began, which began with this line. Takes what
    /// the thread gets, and the line by which the owner of the mutex came to own it.
    pub(crate) fn of(
        world: &World,
        thread: ThreadPlace,
        mutex: MutexPlace,
        line: u64,
        got: u64,
        grant: u64,
    ) -> WaitStart
        ensures { (since : ℕ → ℕ) → mutex ≡ awaited (world_of world.now) thread
            → got ≡ gets (world_of world.now).state thread
            → grant ≡ option_map_or (λ o. since mutex) (owner_of (world_of world.now).state mutex) 0
            → result ≡ wait_at thread line since (world_of world.now) }
    {
        let (owner, owner_level) = owner_numbers(world, mutex);
        WaitStart {
            line,
            thread: world.thread_number(thread),
            mutex: world.mutex_number(mutex),
            from: world.clock(),
            level: world.level(thread),
            gets: got,
            owner,
            owner_level,
            grant,
        }
    }
}

/// Returns the number of the owner of a mutex, and its level; 0 and 0 if it is free.
fn owner_numbers(world: &World, mutex: MutexPlace) -> (u64, u64)
    ensures number { result.0 ≡ option_map_or
        (thread_number (world_of world.now)) (owner_of (world_of world.now).state mutex) 0 }
    ensures level { result.1 ≡ option_map_or
        (base_of (world_of world.now).state) (owner_of (world_of world.now).state mutex) 0 }
{
    match world.waits().owner(mutex) {
        Some(owner) => (world.thread_number(owner), world.level(owner)),
        None => (0, 0),
    }
}
