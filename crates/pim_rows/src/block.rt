//! How a wait at an object began.

ghost use Rattle.std.specs.Prelude.{◌≡◌};
ghost use Rattle.pim_world.specs.Held.{world_of};
ghost use Rattle.pim_rows.specs.Begun.{block_at};

use pim_waits::ThreadPlace;
use pim_world::World;
use std::marker::Model;

/// How a wait at an object began.
#[derive(Clone, Copy)]
pub(crate) struct Block {
    /// Its line.
    pub(crate) line: u64,
    /// The number of its thread.
    pub(crate) thread: u64,
    /// The number of its object.
    pub(crate) object: u64,
    /// The clock, in nanoseconds.
    pub(crate) from: u64,
    /// The thread's level.
    pub(crate) level: u64,
}

impl Model for Block {
    ghost use Rattle.pim_rows.specs.Begun as spec;

    ghost Value = { spec.Block };

    ghost view = { λ b. record {
      line = b.line;
      thread = b.thread;
      object = b.object;
      from = b.from;
      level = b.level;
    } };

    ghost inverse = { λ b. record {
      line = b.line;
      thread = b.thread;
      object = b.object;
      from = b.from;
      level = b.level;
    } };
}

impl Block {
    /// Returns how the wait of a thread began, which began with this line.
    pub(crate) fn of(world: &World, thread: ThreadPlace, line: u64) -> Block
        ensures { result ≡ block_at thread line (world_of world.now) }
    {
        let object = match world.blocked(thread) {
            Some(object) => object.0,
            None => 0,
        };
        Block {
            line,
            thread: world.thread_number(thread),
            object,
            from: world.clock(),
            level: world.level(thread),
        }
    }
}
