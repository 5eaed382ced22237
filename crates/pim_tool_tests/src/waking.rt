//! Threads that wait in `settle`, and the call that wakes them.

use crate::making::{FIRST, SECOND, base, by, made};
use crate::rows::Answer;
use Op::{Lock, ReleaseAll};
use pim_base::{MutexNo, Op, Protocol, Reply, TaskNo};
use pim_manager::Manager;
use pim_shared::{Looker, Settled, Shared, SharedFault};
use std::alloc::Global;
use std::process::Abort;
use std::rt::Clock;
use std::sync::Wait;
use std::sync::atomic::{AtomicU64, Ordering};
use std::thread::{self, Threads, join};
use std::time::Duration;

/// The numbers of threads that are about to call `settle`, and that have returned from it.
#[derive(Drop)]
struct Waits {
    begun: AtomicU64,
    ended: AtomicU64,
}

/// Returns whether the count reaches 2, within 20,000,000 turns, some seconds.
fn reaches_two(count: &AtomicU64) -> bool {
    for _turn in 0..20_000_000 {
        if count.load(Ordering::SeqCst) >= 2 {
            return true;
        }
        thread::yield_now();
    }
    false
}

/// Calls `settle`, and counts before and after it.
fn settle_counted<R: Wait>(
    rt: &R,
    shared: &Shared,
    waits: &Waits,
    task: u16,
    mutex: MutexNo,
) -> Result<Settled, SharedFault> {
    waits.begun.fetch_add(1, Ordering::SeqCst);
    let answer = shared.settle(rt, TaskNo(task), mutex);
    waits.ended.fetch_add(1, Ordering::SeqCst);
    answer
}

/// Releases both mutexes, this long after both threads are about to call `settle`: by `call_with` if there is a reader,
/// else by `call`. Returns what that answers, and whether it woke both threads.
fn release<R: Wait + Clock>(
    rt: &R,
    shared: &Shared,
    waits: &Waits,
    looker: Option<&mut Looker>,
    pause: u64,
) -> (Answer, bool) {
    reaches_two(&waits.begun);
    if pause > 0 {
        thread::sleep(rt, Duration::from_millis(pause));
    }
    let step = by(1, ReleaseAll);
    let answer = match looker {
        Some(looker) => shared.call_with(rt, looker, step),
        None => shared.call(rt, step),
    };
    let both = reaches_two(&waits.ended);
    // Further calls wake a thread that the first one left asleep, so that the test fails and ends.
    for _task in 0..2 {
        let _closed = shared.call(rt, base(1, 10));
    }
    (answer, both)
}

/// What `settle` returns for the tasks 2 and 3.
type Both = (Result<Settled, SharedFault>, Result<Settled, SharedFault>);

/// What `settle` returns for the tasks 2 and 3, which wait for mutex 1 and mutex 2, and what the release returns.
fn released<R: Threads + Wait + Clock + Sync>(
    rt: &R,
    shared: &Shared,
    looker: Option<&mut Looker>,
    pause: u64,
) -> (Both, (Answer, bool)) {
    let waits = Waits {
        begun: AtomicU64::new(0),
        ended: AtomicU64::new(0),
    };
    let waits = &waits;
    join(
        rt,
        || join(
            rt,
            || settle_counted(rt, shared, waits, 2, FIRST),
            || settle_counted(rt, shared, waits, 3, SECOND),
        ),
        || release(rt, shared, waits, looker, pause),
    )
}

/// Makes a manager whose task 1 owns both mutexes, for which the tasks 2 and 3 wait.
fn awaited(rt: &impl Abort, alloc: Global) -> Manager {
    let protocols = [Protocol::None, Protocol::None];
    let mut manager = made(rt, alloc, &[10, 20, 30], &protocols);
    manager.run(&[by(1, Lock(FIRST)), by(1, Lock(SECOND))]);
    manager.run(&[by(2, Lock(FIRST)), by(3, Lock(SECOND))]);
    manager
}

/// What `settle` and the release return on a shared manager with this room and number of readers.
fn woken<R: Threads + Wait + Clock + Abort + Sync>(
    rt: &R,
    alloc: Global,
    room: usize,
    lookers: u16,
    pause: u64,
) -> (Both, (Answer, bool)) {
    let manager = awaited(rt, alloc);
    let (shared, mut lookers) = Shared::new(rt, alloc, manager, room, lookers).expect(rt, "memory");
    let answers = released(rt, &shared, lookers.get_mut(0), pause);
    let (_, _log) = shared.finish(rt);
    answers
}

/// The room, what `settle` returns to both tasks, and what the release returns: they own the mutexes then, or it found the
/// log full.
const ROWS: [(usize, Result<Settled, SharedFault>, Answer); 2] = [
    (0, Err(SharedFault::Closed), Err(SharedFault::Full)),
    (1, Ok(Settled::Owns), Ok(Reply::Released(2))),
];

/// How often one call has to wake both tasks, by how many readers, and how many milliseconds after they began to settle:
/// mostly while they still fall asleep, and sometimes while they sleep.
const ROUNDS: [(u16, u16, u64); 4] = [(5, 0, 2), (5, 1, 2), (300, 0, 0), (300, 1, 0)];

#[test]
fn one_call_wakes_all_tasks_that_wait(rt: HostRuntime) {
    for (rounds, lookers, pause) in ROUNDS {
        for (room, settled, answer) in ROWS {
            let wanted = ((settled, settled), (answer, true));
            for _round in 0..rounds {
                let shown = woken(&rt, rt.alloc(), room, lookers, pause);
                assert!(rt; shown == wanted, "room {room}");
            }
        }
    }
}
