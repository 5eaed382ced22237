//! Reads by several threads while a writer never rests.

use crate::bench::asking::{Ask, Change, expect};
use crate::bench::scene::change;
use crate::bench::timed::{Timed, all_of};
use pim_base::TaskNo;
use std::alloc::Global;
use std::sync::atomic::{AtomicBool, Ordering};
use std::sync::{Mutex, Wait};
use std::thread::Threads;
use std::time::{Clock, Duration, Instant};
use std::{io, thread};

/// Times `looks` looks of each looker, while steps are made on `changed` all the time.
pub fn time_looks<A, C, R>(
    rt: &R,
    alloc: Global,
    lookers: Vec<A>,
    changed: &C,
    looks: u32,
) -> io::Result<Timed>
where
    A: Ask + Send + Drop,
    C: Change + Sync,
    R: Threads + Wait + Clock + Sync,
{
    let done = AtomicBool::new(false);
    let mut slots = Vec::with_capacity(alloc, lookers.len())?;
    for _ in &lookers {
        slots.push(Mutex::new(None))?;
    }
    let (done, times) = (&done, slots.as_slice());
    thread::scope(thread::scope_env(), rt, |scope| {
        let _writer = scope.spawn(move || write_until(rt, changed, done));
        thread::scope(thread::scope_env(), rt, |inner| {
            for (looker, slot) in lookers.into_iter().zip(times) {
                let _looking = inner.spawn(move || {
                    *slot.lock(rt) = time_of(rt, looker, looks).ok();
                });
            }
        });
        done.store(true, Ordering::SeqCst);
    });
    all_of(slots)
}

/// Makes steps until it is done.
fn write_until<C: Change, R: Wait>(rt: &R, changed: &C, done: &AtomicBool) {
    for turn in 0..u64::MAX {
        if done.load(Ordering::SeqCst) || !changed.change(rt, change(turn)) {
            return;
        }
    }
}

/// Times the looks of one looker, at first all together, then some of them one by one.
///
/// # Errors
///
/// A clock that fails, or a look that isn't answered.
fn time_of<A: Ask + Drop, R: Wait + Clock>(rt: &R, looker: A, looks: u32) -> io::Result<Timed> {
    let mut looker = looker;
    let start = Instant::now(rt)?;
    for _ in 0..looks {
        expect(looker.ask(rt, TaskNo(1)).is_some())?;
    }
    let time = start.elapsed(rt)?;
    let mut longest = Duration::ZERO;
    for _ in 0..looks {
        let start = Instant::now(rt)?;
        expect(looker.ask(rt, TaskNo(1)).is_some())?;
        longest = longest.max(start.elapsed(rt)?);
    }
    Ok(Timed {
        count: u64::from(looks),
        time,
        longest,
    })
}
