//! How an ownership began.

ghost use Rattle.std.specs.Prelude.{◌≡◌};
ghost use Rattle.pim_world.specs.Held.{world_of};
ghost use Rattle.pim_rows.specs.Begun.{grant_at};

use pim_waits::{MutexPlace, ThreadPlace};
use pim_world::World;
use std::marker::Model;

/// How an ownership began.
#[derive(Clone, Copy)]
pub(crate) struct Grant {
    /// The place of the owner.
    pub(crate) owner: usize,
    /// The number of the owner, its level, and for how long it had been off a CPU, in nanoseconds.
    pub(crate) thread: u64,
    pub(crate) level: u64,
    pub(crate) off: u64,
    /// Its line.
    pub(crate) line: u64,
    /// The clock, in nanoseconds.
    pub(crate) from: u64,
}

impl Model for Grant {
    ghost use Rattle.pim_rows.specs.Begun as spec;

    ghost Value = { spec.Grant };

    ghost view = { λ g. record {
      owner = g.owner;
      thread = g.thread;
      level = g.level;
      off = g.off;
      line = g.line;
      from = g.from;
    } };

    ghost inverse = { λ g. record {
      owner = g.owner;
      thread = g.thread;
      level = g.level;
      off = g.off;
      line = g.line;
      from = g.from;
    } };
}

impl Grant {
    /// Returns how the ownership of a mutex began, which began with this line. For so long its
    /// owner had been off a CPU.
    pub(crate) fn of(world: &World, mutex: MutexPlace, line: u64, off: u64) -> Grant
        ensures { result ≡ grant_at mutex line off (world_of world.now) }
    {
        let owner = match world.waits().owner(mutex) {
            Some(owner) => owner,
            None => ThreadPlace(0),
        };
        Grant {
            owner: owner.0,
            thread: world.thread_number(owner),
            level: world.level(owner),
            off,
            line,
            from: world.clock(),
        }
    }
}
