//! What workers call and return, over gates that replace a manager.

use crate::gates::{Call, Recorder, Refusing, Rendezvous, Settling};
use crate::making::{FIRST, SECOND, run_lines};
use Op::{Lock, ReleaseAll, SetBase, Try, Unlock};
use pim_base::{MAX_WORKERS, Op, Refusal, Reply, TaskNo};
use pim_shared::{Gate, Settled, SharedFault, worker};
use std::alloc::Global;
use std::process::Abort;
use std::sync::Wait;
use std::thread::Threads;

/// What the worker of task 3 returns for the lines, and whether the gate keeps these calls.
fn worked<R: Wait>(
    rt: &R,
    gate: Recorder,
    lines: &[Op],
    calls: &[Call],
) -> (Result<(), SharedFault>, bool) {
    let answer = worker(&gate, rt, TaskNo(3), lines);
    (answer, gate.into_calls().as_slice() == calls)
}

/// A lock and an unlock.
const LOCKED: [Op; 2] = [Lock(FIRST), Unlock(FIRST)];

/// The calls of a worker whose lock was queued. The last one is the release.
const SETTLED: [Call; 4] = [
    Call::Step(3, Lock(FIRST)),
    Call::Settle(3, FIRST),
    Call::Step(3, Unlock(FIRST)),
    Call::Step(3, ReleaseAll),
];

const OWNS: Settling = Ok(Settled::Owns);

/// The room of the gate, what its `settle` returns, what the worker returns, and how many of its calls are kept.
const ENDS: [(usize, Settling, Result<(), SharedFault>, usize); 8] = [
    (9, OWNS, Ok(()), 4),
    (9, Ok(Settled::Withdrawn), Ok(()), 4),
    (0, OWNS, Err(SharedFault::Full), 0),
    (1, OWNS, Err(SharedFault::Full), 1),
    (2, OWNS, Err(SharedFault::Full), 2),
    (3, OWNS, Err(SharedFault::Full), 3),
    (9, Err(SharedFault::Closed), Err(SharedFault::Closed), 2),
    (9, Err(SharedFault::Full), Err(SharedFault::Full), 2),
];

#[test]
fn a_worker_settles_after_a_queued_lock_and_ends_at_a_fault(rt: HostRuntime) {
    for (room, settled, answer, kept) in ENDS {
        let mut gate = Recorder::new(&rt, rt.alloc(), room);
        gate.settled = settled;
        let shown = worked(&rt, gate, &LOCKED, &SETTLED[..kept.min(4)]);
        assert!(rt; shown == (answer, true), "room {room}, {kept} calls");
    }
}

/// The calls of a worker whose steps are all refused.
const REFUSED: [Call; 3] = [
    Call::Step(3, Lock(FIRST)),
    Call::Step(3, Unlock(FIRST)),
    Call::Step(3, ReleaseAll),
];

#[test]
fn a_worker_goes_on_after_a_refusal(rt: HostRuntime) {
    for refusal in Refusal::ALL {
        let mut gate = Recorder::new(&rt, rt.alloc(), 9);
        gate.locked = Reply::Refused(refusal);
        gate.freed = Reply::Refused(refusal);
        let shown = worked(&rt, gate, &LOCKED, &REFUSED);
        assert!(rt; shown == (Ok(()), true), "{refusal:?}");
    }
}

/// A try, a new base, two locks and a release.
const LINES: [Op; 5] = [
    Try(FIRST),
    SetBase(TaskNo(3), 7),
    Lock(SECOND),
    Lock(FIRST),
    ReleaseAll,
];

/// The calls of a worker of these lines, all of whose locks and tries are queued.
const CALLS: [Call; 8] = [
    Call::Step(3, Try(FIRST)),
    Call::Step(3, SetBase(TaskNo(3), 7)),
    Call::Step(3, Lock(SECOND)),
    Call::Settle(3, SECOND),
    Call::Step(3, Lock(FIRST)),
    Call::Settle(3, FIRST),
    Call::Step(3, ReleaseAll),
    Call::Step(3, ReleaseAll),
];

#[test]
fn each_queued_lock_is_settled_and_a_release_follows_a_release(rt: HostRuntime) {
    let gate = Recorder::new(&rt, rt.alloc(), 9);
    let shown = worked(&rt, gate, &LINES, &CALLS);
    assert!(rt; shown == (Ok(()), true));
}

/// Whether the steps of the task are these lines and then one release.
fn are_asked(calls: &[Call], task: usize, lines: &[Op]) -> bool {
    let mut due = lines.iter();
    let mut released = false;
    for call in calls {
        if let Call::Step(actor, op) = call
            && usize::from(*actor) == task
        {
            match due.next() {
                Some(line) if line == op => {}
                None if *op == ReleaseAll && !released => released = true,
                _ => return false,
            }
        }
    }
    released
}

/// Whether each call is of one of the tasks 1 to `count`.
fn are_of(calls: &[Call], count: usize) -> bool {
    for call in calls {
        let (Call::Step(actor, _) | Call::Settle(actor, _)) = call;
        if *actor == 0 || usize::from(*actor) > count {
            return false;
        }
    }
    true
}

/// Whether the calls are the steps of all these scripts, and of no other one.
fn are_of_all(calls: &[Call], scripts: &[&[Op]]) -> bool {
    for (index, lines) in scripts.iter().enumerate() {
        if !are_asked(calls, index + 1, lines) {
            return false;
        }
    }
    are_of(calls, scripts.len())
}

/// Whether workers make these scripts over a gate, each task its own.
fn make_scripts<R: Threads + Wait + Abort + Sync>(
    rt: &R,
    alloc: Global,
    scripts: &[&[Op]],
) -> bool {
    let gate = Recorder::new(rt, alloc, 64);
    let answer = run_lines(rt, alloc, &gate, scripts);
    are_of_all(&gate.into_calls(), scripts) && answer == Ok(())
}

#[test]
fn each_task_makes_its_script(rt: HostRuntime) {
    const TRIED: [Op; 1] = [Try(SECOND)];
    let locked: [&[Op]; MAX_WORKERS] = [&LOCKED; MAX_WORKERS];
    assert!(rt; make_scripts(&rt, rt.alloc(), &[]));
    assert!(rt; make_scripts(&rt, rt.alloc(), &[&LOCKED, &[], &TRIED]));
    assert!(rt; make_scripts(&rt, rt.alloc(), &locked));
}

/// What this number of empty scripts over the gate answers.
fn outcome<G: Gate + Sync, R: Threads + Wait + Abort + Sync>(
    rt: &R,
    alloc: Global,
    gate: &G,
    count: usize,
) -> Result<(), SharedFault> {
    let empty: [&[Op]; MAX_WORKERS] = [&[]; MAX_WORKERS];
    run_lines(rt, alloc, gate, &empty[..count.min(MAX_WORKERS)])
}

#[test]
fn scripts_run_at_the_same_time(rt: HostRuntime) {
    let answer = outcome(&rt, rt.alloc(), &Rendezvous::new(), 2);
    assert!(rt; answer == Ok(()));
}

const CLOSED: Option<SharedFault> = Some(SharedFault::Closed);

const FULL: Option<SharedFault> = Some(SharedFault::Full);

const MEMORY: Option<SharedFault> = Some(SharedFault::Memory);

/// The number of scripts, the fault of each task's call, and what the run returns.
const FAULTS: [(usize, [Option<SharedFault>; 3], Result<(), SharedFault>); 9] = [
    (3, [None, None, None], Ok(())),
    (3, [CLOSED, FULL, None], Err(SharedFault::Full)),
    (3, [CLOSED, CLOSED, CLOSED], Err(SharedFault::Closed)),
    (3, [None, None, CLOSED], Err(SharedFault::Closed)),
    (3, [CLOSED, MEMORY, FULL], Err(SharedFault::Memory)),
    (3, [FULL, MEMORY, CLOSED], Err(SharedFault::Full)),
    (2, [CLOSED, FULL, None], Err(SharedFault::Full)),
    (2, [CLOSED, CLOSED, CLOSED], Err(SharedFault::Closed)),
    (16, [CLOSED, CLOSED, CLOSED], Err(SharedFault::Closed)),
];

#[test]
fn the_fault_of_the_least_task_that_is_not_closed(rt: HostRuntime) {
    for (count, faults, answer) in FAULTS {
        let shown = outcome(&rt, rt.alloc(), &Refusing { faults }, count);
        assert!(rt; shown == answer, "{count} {faults:?}");
    }
}
