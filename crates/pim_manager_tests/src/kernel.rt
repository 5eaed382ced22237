//! pim_manager: steps that the kernel asks for itself.

use crate::manager::{FIRST, Listed, SECOND, Why, by, expect_changed, made, tracked};
use crate::priorities::prio;
use KernelOp::{Cancel, SetBase, SetCeiling};
use Reply::{Granted, Refused, Set, Withdrawn};
use pim_base::{Op, Protocol, Refusal, Reply, TaskNo};
use pim_manager::{Done, KernelOp, Manager, TrackedManager};
use std::process::Abort;
use std::test::Fail;

/// A step of the kernel, its reply, how many visits it makes, and the tasks whose priority it changes.
#[derive(Clone, Copy)]
struct Row(KernelOp, Reply, u32, &'static [Listed]);

/// Task 2 waits for mutex 1.
const BY_SECOND: Why = Why::Waiter(2, 1);

/// Tasks 1 and 2 have the bases 10 and 50. Task 1 owns mutex 1, an INHERIT one, and task 2 waits for it. Mutex 2 has
/// the ceiling 60.
const ROWS: [Row; 9] = [
    Row(
        SetBase(TaskNo(2), 70),
        Set,
        2,
        &[(1, 70, BY_SECOND), (2, 70, Why::Base)],
    ),
    Row(SetBase(TaskNo(3), 70), Refused(Refusal::NoTask), 0, &[]),
    Row(SetBase(TaskNo(1), 100), Refused(Refusal::Priority), 0, &[]),
    Row(SetBase(TaskNo(1), 0), Refused(Refusal::Priority), 0, &[]),
    Row(Cancel(TaskNo(2)), Withdrawn, 1, &[(1, 10, Why::Base)]),
    Row(Cancel(TaskNo(2)), Refused(Refusal::NotWaiting), 0, &[]),
    Row(Cancel(TaskNo(0)), Refused(Refusal::NoTask), 0, &[]),
    Row(SetCeiling(SECOND, 80), Set, 0, &[]),
    Row(SetCeiling(FIRST, 80), Refused(Refusal::NotProtect), 0, &[]),
];

/// Makes the kernel's step of a row on a manager of each kind, and tests what both return, and what the tracked one
/// lists.
fn expect_row(rt: &impl Abort, tracked: &mut TrackedManager, manager: &mut Manager, row: &Row) {
    let (op, reply, visits) = (row.0, row.1, row.2);
    let done = Done { reply, visits };
    assert!(rt; tracked.kernel_step(op) == done, "{op:?}");
    assert!(rt; manager.kernel_step(op) == done, "{op:?}");
    expect_changed(rt, tracked, row.3);
}

/// Tests that the kernel doesn't set the ceiling of a mutex that a task owns.
fn expect_owned_ceiling(rt: &impl Abort, tracked: &mut TrackedManager) {
    assert!(rt; tracked.step(by(1, Op::Lock(SECOND))).reply == Granted);
    expect_changed(rt, tracked, &[(1, 80, Why::Ceiling(2))]);
    let refused = tracked.kernel_step(SetCeiling(SECOND, 70)).reply;
    assert!(rt; refused == Refused(Refusal::Busy));
    expect_changed(rt, tracked, &[]);
}

#[test]
fn kernel_asks_where_no_task_does(rt: HostRuntime) -> Result<(), Fail> {
    let protocols = [Protocol::Inherit, Protocol::Protect(prio(&rt, 60))];
    let mut manager = made(&rt, rt.alloc(), &[10, 50], &protocols)?;
    let mut tracked = tracked(&rt, rt.alloc(), &[10, 50], &protocols)?;
    for actor in 1..3 {
        manager.step(by(actor, Op::Lock(FIRST)));
        tracked.step(by(actor, Op::Lock(FIRST)));
    }
    for row in &ROWS {
        expect_row(&rt, &mut tracked, &mut manager, row);
    }
    expect_owned_ceiling(&rt, &mut tracked);
    Ok(())
}
