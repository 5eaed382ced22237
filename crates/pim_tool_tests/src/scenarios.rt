//! Scenarios over one shared manager, mostly of two tasks with the bases 10 and 20.

use crate::making::{FIRST, SECOND, base, by, made};
use crate::rows::Row::{Call, CallWith, Look, Settle};
use crate::rows::{Row, are_logged, expect_rows, first_wrong};
use Op::{Cancel, Lock, ReleaseAll, SetBase, Try, Unlock};
use pim_base::{MutexNo, Op, Protocol, Reason, Refusal, Reply, TaskNo};
use pim_shared::{Settled, Shared, SharedFault};
use std::alloc::Global;
use std::process::Abort;
use std::sync::Wait;

/// A log that is full after two calls.
const FULL: [Row; 4] = [
    Call(1, Lock(FIRST), Ok(Reply::Granted)),
    Call(1, Unlock(FIRST), Ok(Reply::Freed)),
    Call(1, Try(FIRST), Err(SharedFault::Full)),
    Call(1, Lock(FIRST), Err(SharedFault::Closed)),
];

/// The first of these rows that is wrong, whether the log has their entries, and who owns mutex 1 at the end.
fn full<R: Wait + Abort>(rt: &R, alloc: Global) -> (Option<usize>, bool, Option<Option<TaskNo>>) {
    let manager = made(rt, alloc, &[10], &[Protocol::None]);
    let (shared, mut lookers) = Shared::new(rt, alloc, manager, 2, 0).expect(rt, "memory");
    let wrong = first_wrong(rt, &shared, &mut lookers, &FULL);
    let (manager, log) = shared.finish(rt);
    (
        wrong,
        are_logged(log.entries(), &FULL),
        manager.owner(FIRST),
    )
}

#[test]
fn a_full_log_closes(rt: HostRuntime) {
    let shown = full(&rt, rt.alloc());
    assert!(rt; shown == (None, true, Some(None)));
}

#[test]
fn the_log_begins_at_the_given_manager(rt: HostRuntime) {
    const ROWS: [Row; 2] = [
        Look(0, 1, Ok(Some((0, 70, Reason::Base)))),
        Call(1, Unlock(FIRST), Ok(Reply::Handed(TaskNo(2)))),
    ];
    let mut manager = made(&rt, rt.alloc(), &[10, 20], &[Protocol::None]);
    manager.run(&[by(1, Lock(FIRST)), by(2, Lock(FIRST)), base(1, 70)]);
    expect_rows(&rt, rt.alloc(), manager, 4, 1, &ROWS);
}

#[test]
fn each_reply_is_returned_and_each_step_made_once(rt: HostRuntime) {
    const ROWS: [Row; 14] = [
        Call(1, Lock(FIRST), Ok(Reply::Granted)),
        CallWith(0, 1, Lock(FIRST), Ok(Reply::Granted)),
        CallWith(0, 2, Lock(FIRST), Ok(Reply::Queued)),
        CallWith(0, 1, Unlock(FIRST), Ok(Reply::Kept)),
        Call(2, ReleaseAll, Ok(Reply::Refused(Refusal::Waiting))),
        CallWith(0, 1, Cancel(TaskNo(2)), Ok(Reply::Withdrawn)),
        Call(2, Lock(FIRST), Ok(Reply::Queued)),
        CallWith(0, 1, Unlock(FIRST), Ok(Reply::Handed(TaskNo(2)))),
        CallWith(0, 2, Unlock(FIRST), Ok(Reply::Freed)),
        Call(1, SetBase(TaskNo(1), 30), Ok(Reply::Set)),
        Call(1, Lock(FIRST), Ok(Reply::Granted)),
        Call(1, Lock(SECOND), Ok(Reply::Granted)),
        CallWith(0, 1, Lock(SECOND), Ok(Reply::Refused(Refusal::Deadlock))),
        CallWith(0, 1, ReleaseAll, Ok(Reply::Released(2))),
    ];
    let manager = made(
        &rt,
        rt.alloc(),
        &[10, 20],
        &[Protocol::InheritRecursive, Protocol::None],
    );
    expect_rows(&rt, rt.alloc(), manager, 20, 1, &ROWS);
}

#[test]
fn a_reader_that_made_no_call_sees_one(rt: HostRuntime) {
    const ROWS: [Row; 3] = [
        Look(0, 2, Ok(Some((0, 20, Reason::Base)))),
        Call(1, SetBase(TaskNo(2), 30), Ok(Reply::Set)),
        Look(0, 2, Ok(Some((1, 30, Reason::Base)))),
    ];
    let manager = made(&rt, rt.alloc(), &[10, 20], &[]);
    expect_rows(&rt, rt.alloc(), manager, 1, 1, &ROWS);
}

#[test]
fn a_reader_finds_no_unknown_task(rt: HostRuntime) {
    const ROWS: [Row; 4] = [
        Look(0, 3, Ok(None)),
        CallWith(
            0,
            1,
            SetBase(TaskNo(3), 30),
            Ok(Reply::Refused(Refusal::NoTask)),
        ),
        Look(0, 0, Ok(None)),
        Look(0, 3, Ok(None)),
    ];
    let manager = made(&rt, rt.alloc(), &[10, 20], &[]);
    expect_rows(&rt, rt.alloc(), manager, 1, 1, &ROWS);
}

#[test]
fn a_reader_sees_whose_wait_boosts_an_owner(rt: HostRuntime) {
    const ROWS: [Row; 5] = [
        Look(0, 1, Ok(Some((0, 10, Reason::Base)))),
        Call(1, Lock(FIRST), Ok(Reply::Granted)),
        Look(0, 1, Ok(Some((1, 10, Reason::Base)))),
        Call(2, Lock(FIRST), Ok(Reply::Queued)),
        Look(0, 1, Ok(Some((2, 20, Reason::Waiter(TaskNo(2), FIRST))))),
    ];
    let manager = made(&rt, rt.alloc(), &[10, 20], &[Protocol::Inherit]);
    expect_rows(&rt, rt.alloc(), manager, 2, 1, &ROWS);
}

#[test]
fn two_readers_learn_of_their_own_calls_and_of_others(rt: HostRuntime) {
    const ROWS: [Row; 10] = [
        CallWith(0, 1, SetBase(TaskNo(2), 70), Ok(Reply::Set)),
        Look(0, 2, Ok(Some((1, 70, Reason::Base)))),
        Call(1, SetBase(TaskNo(2), 30), Ok(Reply::Set)),
        Look(0, 2, Ok(Some((2, 30, Reason::Base)))),
        CallWith(
            1,
            2,
            SetBase(TaskNo(9), 5),
            Ok(Reply::Refused(Refusal::NoTask)),
        ),
        Look(1, 2, Ok(Some((3, 30, Reason::Base)))),
        CallWith(0, 1, SetBase(TaskNo(2), 40), Err(SharedFault::Full)),
        Look(0, 2, Ok(Some((3, 30, Reason::Base)))),
        CallWith(1, 1, SetBase(TaskNo(2), 40), Err(SharedFault::Closed)),
        Look(1, 2, Ok(Some((3, 30, Reason::Base)))),
    ];
    let manager = made(&rt, rt.alloc(), &[10, 20], &[]);
    expect_rows(&rt, rt.alloc(), manager, 3, 2, &ROWS);
}

#[test]
fn two_equal_calls_are_two_entries(rt: HostRuntime) {
    const ROWS: [Row; 4] = [
        CallWith(0, 1, SetBase(TaskNo(2), 70), Ok(Reply::Set)),
        Look(0, 2, Ok(Some((1, 70, Reason::Base)))),
        CallWith(1, 1, SetBase(TaskNo(2), 70), Ok(Reply::Set)),
        Look(1, 2, Ok(Some((2, 70, Reason::Base)))),
    ];
    let manager = made(&rt, rt.alloc(), &[10, 20], &[]);
    expect_rows(&rt, rt.alloc(), manager, 2, 2, &ROWS);
}

#[test]
fn a_waiter_is_woken_when_a_fault_closes(rt: HostRuntime) {
    // There is neither a task 9 nor a mutex 9.
    const ROWS: [Row; 8] = [
        Call(1, Lock(FIRST), Ok(Reply::Granted)),
        Settle(1, 1, Ok(Settled::Owns)),
        Settle(2, 1, Ok(Settled::Withdrawn)),
        Settle(9, 9, Ok(Settled::Withdrawn)),
        Call(2, Lock(FIRST), Ok(Reply::Queued)),
        Call(1, Try(FIRST), Err(SharedFault::Full)),
        Settle(2, 1, Err(SharedFault::Closed)),
        Settle(1, 1, Ok(Settled::Owns)),
    ];
    let manager = made(&rt, rt.alloc(), &[10, 20], &[Protocol::None]);
    expect_rows(&rt, rt.alloc(), manager, 2, 0, &ROWS);
}

#[test]
fn a_waiter_owns_after_the_hand_over(rt: HostRuntime) {
    const ROWS: [Row; 5] = [
        Call(1, Lock(FIRST), Ok(Reply::Granted)),
        Call(2, Lock(FIRST), Ok(Reply::Queued)),
        Call(1, Unlock(FIRST), Ok(Reply::Handed(TaskNo(2)))),
        Settle(2, 1, Ok(Settled::Owns)),
        Settle(1, 1, Ok(Settled::Withdrawn)),
    ];
    let manager = made(&rt, rt.alloc(), &[10, 20], &[Protocol::None]);
    expect_rows(&rt, rt.alloc(), manager, 3, 0, &ROWS);
}
