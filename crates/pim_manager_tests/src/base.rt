//! pim_base: numbers, priorities, protocols, operations and replies.

use crate::priorities::prio;
use pim_base::{
    Line, MutexNo, Op, Prio, Protocol, Refusal, Reply, Step, StepLine, TaskNo, Waiter, higher, nth,
};

#[test]
fn priorities_are_1_to_99(rt: HostRuntime) {
    let (lowest, highest) = (prio(&rt, 1), prio(&rt, 99));
    assert!(rt; [lowest.get(), highest.get()] == [1, 99]);
    assert!(rt; [Prio::new(0), Prio::new(100)] == [None, None]);
    assert!(rt; higher(lowest, highest) == highest);
}

#[test]
fn numbers_and_places_are_counted_from_1(rt: HostRuntime) {
    assert!(rt; [TaskNo(7).get(), MutexNo(256).get()] == [7, 256]);
    let items = [10, 20];
    assert!(rt; [nth(&items, 0), nth(&items, 2), nth(&items, 3)] == [None, Some(20), None]);
}

#[test]
fn only_protect_has_a_ceiling_and_only_one_protocol_is_recursive(rt: HostRuntime) {
    let ceiling = prio(&rt, 50);
    let ceilings = [
        Protocol::Protect(ceiling).ceiling(),
        Protocol::Inherit.ceiling(),
    ];
    assert!(rt; ceilings == [Some(ceiling), None]);
    let inherit = [
        Protocol::Inherit.is_inherit(),
        Protocol::None.is_inherit(),
        Protocol::InheritRecursive.is_recursive(),
        Protocol::Inherit.is_recursive(),
    ];
    assert!(rt; inherit == [true, false, true, false]);
}

#[test]
fn only_its_own_cancel_withdraws_a_task(rt: HostRuntime) {
    let withdrawals = [
        Op::Cancel(TaskNo(3)).withdraws(TaskNo(3)),
        Op::Cancel(TaskNo(2)).withdraws(TaskNo(3)),
    ];
    assert!(rt; withdrawals == [true, false]);
}

const NAMES: [(Refusal, &str); 12] = [
    (Refusal::NoTask, "no-task"),
    (Refusal::Waiting, "waiting"),
    (Refusal::NoMutex, "no-mutex"),
    (Refusal::Deadlock, "deadlock"),
    (Refusal::Ceiling, "ceiling"),
    (Refusal::Busy, "busy"),
    (Refusal::NotOwner, "not-owner"),
    (Refusal::NotWaiting, "not-waiting"),
    (Refusal::Priority, "priority"),
    (Refusal::Tickets, "tickets"),
    (Refusal::NotProtect, "not-protect"),
    (Refusal::Again, "again"),
];

#[test]
fn each_refusal_has_its_name(rt: HostRuntime) {
    for (refusal, name) in NAMES {
        assert!(rt; refusal.name() == name, "{name}");
    }
}

/// Returns the step line in which task 1 does this, with this recorded reply.
fn line(op: Op, recorded: Option<Reply>) -> Line {
    let actor = TaskNo(1);
    let step = Step { actor, op };
    Line::Step(StepLine { step, recorded })
}

#[test]
fn ceilings_that_change_and_recursive_mutexes_came_with_version_2(rt: HostRuntime) {
    let first = [
        Protocol::Inherit.since(),
        Op::Lock(MutexNo(1)).since(),
        Refusal::Busy.since(),
        Reply::Granted.since(),
        line(Op::Lock(MutexNo(1)), Some(Reply::Granted)).since(),
    ];
    assert!(rt; first == [1; 5]);
    let second = [
        Protocol::InheritRecursive.since(),
        Op::SetCeiling(MutexNo(1), 10).since(),
        Refusal::Again.since(),
        Reply::Kept.since(),
        line(Op::Unlock(MutexNo(1)), Some(Reply::Kept)).since(),
    ];
    assert!(rt; second == [2; 5]);
}

#[test]
fn waiters_come_by_priority_and_then_by_ticket(rt: HostRuntime) {
    let task = TaskNo(1);
    let [low, high] = [prio(&rt, 40), prio(&rt, 50)];
    let early = Waiter {
        task,
        prio: low,
        ticket: 1,
    };
    let late = Waiter { ticket: 9, ..early };
    let urgent = Waiter { prio: high, ..late };
    let comes_first = [
        urgent.precedes(&early),
        early.precedes(&late),
        early.precedes(&urgent),
        late.precedes(&early),
    ];
    assert!(rt; comes_first == [true, true, false, false]);
}
