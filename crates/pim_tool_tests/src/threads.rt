//! Threads that call one shared manager at the same time.

use crate::making::{FIRST, by, entry, shared};
use Op::{Try, Unlock};
use pim_base::{Entry, Op, TaskNo};
use pim_shared::Shared;
use std::alloc::Global;
use std::process::Abort;
use std::sync::Wait;
use std::thread::{Threads, join};

const CALLS: usize = 100;

/// The calls of a task with their replies, in order. None for a fault.
type Called = [Option<Entry>; CALLS];

/// Makes calls of this task, a try and an unlock in turn.
fn try_and_unlock<R: Wait>(rt: &R, shared: &Shared, task: u16) -> Called {
    let mut called = [None; CALLS];
    let mut tries = true;
    for made in &mut called {
        let op = if tries { Try(FIRST) } else { Unlock(FIRST) };
        let step = &by(task, op);
        if let Ok(reply) = shared.call(rt, *step) {
            *made = Some(entry(*step, reply));
        }
        tries = !tries;
    }
    called
}

/// Whether the entries of this task are its calls, in order.
fn are_calls(entries: &[Entry], task: u16, called: &[Option<Entry>]) -> bool {
    let mut place = 0usize;
    for entry in entries {
        if entry.step.actor == TaskNo(task) {
            if called.get(place) != Some(&Some(*entry)) {
                return false;
            }
            place = place.saturating_add(1);
        }
    }
    place == called.len()
}

/// The calls of both tasks.
fn called<R: Threads + Wait + Sync>(rt: &R, shared: &Shared) -> (Called, Called) {
    join(
        rt,
        || try_and_unlock(rt, shared, 1),
        || try_and_unlock(rt, shared, 2),
    )
}

/// Lets two tasks call a shared manager. Returns the number of entries in its log, and whether they are their calls.
fn logged<R: Threads + Wait + Abort + Sync>(rt: &R, alloc: Global) -> (usize, bool, bool) {
    let (shared, _) = shared(rt, alloc, 2 * CALLS, 0);
    let (one, two) = called(rt, &shared);
    let (_, log) = shared.finish(rt);
    let entries = log.entries();
    (
        entries.len(),
        are_calls(entries, 1, &one),
        are_calls(entries, 2, &two),
    )
}

#[test]
fn two_threads_have_all_their_calls_in_the_log(rt: HostRuntime) {
    let shown = logged(&rt, rt.alloc());
    assert!(rt; shown == (200, true, true));
}
