//! The two tables of figures.

use crate::bench::asking::{Counted, LockReader};
use crate::bench::calls::time_calls;
use crate::bench::looks::time_looks;
use crate::bench::scene::manager;
use crate::bench::timed::Timed;
use pim_shared::Shared;
use std::alloc::{AllocError, Global};
use std::io;
use std::io::Print;
use std::sync::{Mutex, RwLock, Wait};
use std::thread::Threads;
use std::time::Clock;

/// Room for the entries of a writer that never rests.
const ROOM: usize = 100_000_000;

/// Prints how many reads a second 1, 4 and 8 readers make while a writer never rests, and the longest read.
pub fn print_looks<R>(rt: &R, alloc: Global, looks: u32) -> io::Result<()>
where
    R: Threads + Wait + Clock + Print + Sync,
{
    println!(rt; "         looks a second            longest look, microseconds")?;
    println!(rt; "lookers  versions  read-write lock  versions  read-write lock")?;
    for lookers in [1u16, 4, 8] {
        let versions = looks_at_versions(rt, alloc, lookers, looks)?;
        let lock = looks_under_lock(rt, alloc, lookers, looks / 10)?;
        let (slowest, slowest_lock) = (versions.longest.as_micros(), lock.longest.as_micros());
        println!(rt;
            "{lookers} {} {} {slowest} {slowest_lock}",
            versions.rate(),
            lock.rate()
        )?;
    }
    Ok(())
}

/// Prints how many calls a second each number of threads makes.
pub fn print_calls<R>(rt: &R, alloc: Global, calls: u32) -> io::Result<()>
where
    R: Threads + Wait + Clock + Print + Sync,
{
    println!(rt; "         calls a second")?;
    println!(rt; "threads  shared    plain lock")?;
    for threads in [1u16, 4, 16] {
        let each = calls / u32::from(threads);
        let shared = calls_of_shared(rt, alloc, threads, each)?;
        let plain = calls_of_lock(rt, alloc, threads, each)?;
        println!(rt; "{threads} {} {}", shared.rate(), plain.rate())?;
    }
    Ok(())
}

fn looks_at_versions<R: Threads + Wait + Clock + Sync>(
    rt: &R,
    alloc: Global,
    lookers: u16,
    looks: u32,
) -> io::Result<Timed> {
    let Ok((shared, lookers)) = Shared::new(rt, alloc, manager(alloc)?, ROOM, lookers) else {
        return Err(io::Error::from(io::ErrorKind::OutOfMemory));
    };
    let timed = time_looks(rt, alloc, lookers, &shared, looks);
    let _end = shared.finish(rt);
    timed
}

fn looks_under_lock<R: Threads + Wait + Clock + Sync>(
    rt: &R,
    alloc: Global,
    lookers: u16,
    looks: u32,
) -> io::Result<Timed> {
    let lock = RwLock::new(Counted {
        manager: manager(alloc)?,
        steps: 0,
    });
    let readers = readers_of(alloc, &lock, lookers)?;
    time_looks(rt, alloc, readers, &lock, looks)
}

fn readers_of(
    alloc: Global,
    lock: &RwLock<Counted>,
    count: u16,
) -> Result<Vec<LockReader<'_>>, AllocError> {
    let mut readers = Vec::new(alloc);
    for _ in 0..count {
        readers.push(LockReader(lock))?;
    }
    Ok(readers)
}

fn calls_of_shared<R: Threads + Wait + Clock + Sync>(
    rt: &R,
    alloc: Global,
    threads: u16,
    calls: u32,
) -> io::Result<Timed> {
    let Ok((shared, _no_lookers)) = Shared::new(rt, alloc, manager(alloc)?, ROOM, 0) else {
        return Err(io::Error::from(io::ErrorKind::OutOfMemory));
    };
    let timed = time_calls(rt, alloc, &shared, threads, calls);
    let _end = shared.finish(rt);
    timed
}

fn calls_of_lock<R: Threads + Wait + Clock + Sync>(
    rt: &R,
    alloc: Global,
    threads: u16,
    calls: u32,
) -> io::Result<Timed> {
    let lock = Mutex::new(manager(alloc)?);
    time_calls(rt, alloc, &lock, threads, calls)
}
