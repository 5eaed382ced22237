//! How fast readers read and threads call, compared with a read-write lock and a plain lock round the same manager.

mod asking;
mod calls;
mod looks;
mod scene;
mod tables;
mod timed;

use std::alloc::Global;
use std::io::{self, Print};
use std::sync::Wait;
use std::thread::Threads;
use std::time::Clock;
use tables::{print_calls, print_looks};

/// How many reads each reader makes, and how many calls all threads together.
#[derive(Clone, Copy)]
pub enum Amount {
    /// So many that the rates mean something.
    Full,
    /// A few, which show that it works.
    Small,
}

impl Amount {
    fn count(self) -> u32 {
        match self {
            Amount::Full => 2_000_000,
            Amount::Small => 2_000,
        }
    }
}

/// Prints the two tables of rates.
pub fn print_rates<R>(rt: &R, alloc: Global, amount: Amount) -> io::Result<()>
where
    R: Threads + Wait + Clock + Print + Sync,
{
    print_looks(rt, alloc, amount.count())?;
    print_calls(rt, alloc, amount.count())
}
