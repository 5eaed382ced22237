//! pim_manager: mutexes that tasks own before the manager knows of it.

use crate::manager::{FIRST, Listed, SECOND, Why, by, expect_changed, made, tracked};
use crate::priorities::prio;
use Op::{Lock, Unlock};
use Protocol::Inherit;
use Reply::{Granted, Handed, Queued};
use pim_base::{MutexNo, Op, Protocol, Reply, TaskNo};
use pim_manager::{AdoptFault, Manager, TrackedManager};
use std::process::Abort;
use std::test::Fail;

/// A PROTECT mutex.
const THIRD: MutexNo = MutexNo(3);

/// A recursive mutex.
const FOURTH: MutexNo = MutexNo(4);

/// A step, its reply, and the tasks whose priority it changes.
#[derive(Clone, Copy)]
struct Row(u16, Op, Reply, &'static [Listed]);

/// Task 2 owns mutex 1, and task 1 waits for it.
const BEFORE: [Row; 2] = [
    Row(2, Lock(FIRST), Granted, &[]),
    Row(1, Lock(FIRST), Queued, &[]),
];

/// Task 3 waits for mutex 2, which task 1 adopted. Task 1 inherits its priority, and so does task 2, for which task 1
/// waits.
const AFTER: [Row; 3] = [
    Row(
        3,
        Lock(SECOND),
        Queued,
        &[(1, 90, Why::Waiter(3, 2)), (2, 90, Why::Waiter(1, 1))],
    ),
    Row(2, Unlock(FIRST), Handed(TaskNo(1)), &[(2, 50, Why::Base)]),
    Row(1, Unlock(SECOND), Handed(TaskNo(3)), &[(1, 10, Why::Base)]),
];

fn expect_row(rt: &impl Abort, tracked: &mut TrackedManager, row: &Row) {
    let step = by(row.0, row.1);
    assert!(rt; tracked.step(step).reply == row.2, "{step:?}");
    expect_changed(rt, tracked, row.3);
}

/// Tests that a waiting task adopts a mutex, and which adoptions are refused, in the order of the checks.
fn expect_adopted(rt: &impl Abort, tracked: &mut TrackedManager) {
    assert!(rt; tracked.adopt(TaskNo(1), SECOND) == Ok(()));
    expect_changed(rt, tracked, &[]);
    let refused = [
        tracked.adopt(TaskNo(4), MutexNo(5)),
        tracked.adopt(TaskNo(1), MutexNo(5)),
        tracked.adopt(TaskNo(1), THIRD),
        tracked.adopt(TaskNo(1), SECOND),
    ];
    let faults = [
        Err(AdoptFault::NoTask),
        Err(AdoptFault::NoMutex),
        Err(AdoptFault::Protect),
        Err(AdoptFault::Busy),
    ];
    assert!(rt; refused == faults);
    let owners = [
        tracked.manager().owner(SECOND),
        tracked.manager().owner(THIRD),
    ];
    assert!(rt; owners == [Some(Some(TaskNo(1))), Some(None)]);
}

/// Tests that an adopted recursive mutex counts 1, and may be locked again.
fn expect_count(rt: &impl Abort, manager: &mut Manager) {
    assert!(rt; manager.adopt(TaskNo(2), FOURTH) == Ok(()));
    assert!(rt; manager.count(FOURTH) == Some(1));
    assert!(rt; manager.step(by(2, Lock(FOURTH))).reply == Granted);
    assert!(rt; manager.step(by(2, Op::ReleaseAll)).reply == Reply::Released(1));
}

#[test]
fn waiting_task_adopts_a_mutex_and_inherits_through_it(rt: HostRuntime) -> Result<(), Fail> {
    let protect = Protocol::Protect(prio(&rt, 60));
    let protocols = [Inherit, Inherit, protect, Protocol::InheritRecursive];
    let mut tracked = tracked(&rt, rt.alloc(), &[10, 50, 90], &protocols)?;
    for row in &BEFORE {
        expect_row(&rt, &mut tracked, row);
    }
    expect_adopted(&rt, &mut tracked);
    for row in &AFTER {
        expect_row(&rt, &mut tracked, row);
    }
    let mut manager = made(&rt, rt.alloc(), &[10, 50, 90], &protocols)?;
    expect_count(&rt, &mut manager);
    Ok(())
}
