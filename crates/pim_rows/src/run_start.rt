//! How it began that the kernel runs a thread at another level than it gets.

ghost use Rattle.std.specs.Prelude.{◌≡◌, ◌≤◌};
ghost use Rattle.pim_world.specs.Held.{world_of};
ghost use Rattle.pim_rows.specs.Begun.{run_start_at};
ghost use Rattle.pim_rows.specs.Rows.{ran_row};

use pim_waits::ThreadPlace;
use pim_world::World;
use std::marker::Model;

/// How it began that the kernel runs a thread at another level than it gets.
#[derive(Clone, Copy)]
pub(crate) struct RunStart {
    /// Its line.
    pub(crate) line: u64,
    /// The number of the thread.
    pub(crate) thread: u64,
    /// The clock, in nanoseconds.
    pub(crate) from: u64,
    /// The level at which the kernel runs the thread.
    pub(crate) level: u64,
    /// What the thread gets.
    pub(crate) gets: u64,
}

impl Model for RunStart {
    ghost use Rattle.pim_rows.specs.Begun as spec;

    ghost Value = { spec.RunStart };

    ghost view = { λ s. record {
      line = s.line;
      thread = s.thread;
      from = s.from;
      level = s.level;
      gets = s.gets;
    } };

    ghost inverse = { λ s. record {
      line = s.line;
      thread = s.thread;
      from = s.from;
      level = s.level;
      gets = s.gets;
    } };
}

impl RunStart {
    /// Returns how it began, with this line, that the kernel runs a thread at the first of these
    /// levels, and it gets the second one.
    pub(crate) fn of(world: &World, thread: ThreadPlace, line: u64, both: (u64, u64)) -> RunStart
        ensures { result ≡ run_start_at thread line both (world_of world.now) }
    {
        RunStart {
            line,
            thread: world.thread_number(thread),
            from: world.clock(),
            level: both.0,
            gets: both.1,
        }
    }

    /// Returns the numbers of its row, if it lasts until a line at this time.
    pub(crate) fn numbers(self, time: u64, until: u64) -> [u64; 7]
        requires { self.from ≤ time }
        ensures { result ≡ (ran_row self time until).numbers }
    {
        [
            self.line,
            until,
            self.thread,
            self.from,
            time - self.from,
            self.level,
            self.gets,
        ]
    }
}
