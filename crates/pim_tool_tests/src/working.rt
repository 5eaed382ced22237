//! Workers over a shared manager.

use crate::making::{FIRST, SECOND, made, run_lines};
use Op::{Lock, Unlock};
use pim_base::{Op, Protocol};
use pim_shared::{Shared, SharedFault};
use std::alloc::Global;
use std::process::Abort;
use std::sync::Wait;
use std::thread::Threads;

/// What a run of the scripts on a shared manager of three tasks with this room returns, and the number of entries.
fn ran<R: Threads + Wait + Abort + Sync>(
    rt: &R,
    alloc: Global,
    scripts: &[&[Op]],
    room: usize,
) -> (Result<(), SharedFault>, usize) {
    let manager = made(rt, alloc, &[10, 20, 30], &[Protocol::Inherit; 2]);
    let (shared, _) = Shared::new(rt, alloc, manager, room, 0).expect(rt, "memory");
    let answer = run_lines(rt, alloc, &shared, scripts);
    let (_, log) = shared.finish(rt);
    (answer, log.entries().len())
}

/// What each task does with two mutexes, the inner one released first.
const NESTED: [Op; 4] = [Lock(FIRST), Lock(SECOND), Unlock(SECOND), Unlock(FIRST)];

#[test]
fn every_worker_makes_its_script(rt: HostRuntime) {
    for _run in 0..200 {
        let shown = ran(&rt, rt.alloc(), &[&NESTED, &NESTED, &NESTED], 15);
        assert!(rt; shown == (Ok(()), 15));
    }
}

#[test]
fn a_fault_of_one_worker_ends_all(rt: HostRuntime) {
    const LINES: [Op; 1] = [Lock(FIRST)];
    for room in 0..6 {
        let shown = ran(&rt, rt.alloc(), &[&LINES, &LINES, &LINES], room);
        assert!(rt; shown == (Err(SharedFault::Full), room));
    }
}
