//! Calls by several threads.

use crate::bench::asking::{Change, expect};
use crate::bench::scene::change;
use crate::bench::timed::{Timed, all_of};
use std::alloc::Global;
use std::sync::{Mutex, Wait};
use std::thread::Threads;
use std::time::{Clock, Duration, Instant};
use std::{io, thread};

/// Times this many calls in each of this many threads.
pub fn time_calls<C, R>(
    rt: &R,
    alloc: Global,
    changed: &C,
    threads: u16,
    calls: u32,
) -> io::Result<Timed>
where
    C: Change + Sync,
    R: Threads + Wait + Clock + Sync,
{
    let mut slots = Vec::with_capacity(alloc, usize::from(threads))?;
    for _ in 0..threads {
        slots
            .push(Mutex::new(None))
            .map_err(|_| io::Error::from(io::ErrorKind::OutOfMemory))?;
    }
    let times = slots.as_slice();
    thread::scope(thread::scope_env(), rt, |scope| {
        for slot in times {
            let _calling = scope.spawn(move || {
                *slot.lock(rt) = time_of(rt, changed, calls).ok();
            });
        }
    });
    all_of(slots)
}

/// Times the calls of one thread.
///
/// # Errors
///
/// A clock that fails, or a step that isn't made.
fn time_of<C: Change, R: Wait + Clock>(rt: &R, changed: &C, calls: u32) -> io::Result<Timed> {
    let start = Instant::now(rt)?;
    for turn in 0..calls {
        expect(changed.change(rt, change(u64::from(turn))))?;
    }
    Ok(Timed {
        count: u64::from(calls),
        time: start.elapsed(rt)?,
        longest: Duration::ZERO,
    })
}
