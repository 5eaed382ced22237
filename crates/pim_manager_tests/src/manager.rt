//! pim_manager: each call of a manager and of a tracked one.

use crate::priorities::{prio, prios};
use Op::{Cancel, Lock, ReleaseAll, SetBase, SetCeiling, Try, Unlock};
use Protocol::Inherit;
use Reply::{Freed, Granted, Handed, Queued, Refused, Released, Set, Withdrawn};
use pim_base::{MutexNo, Op, Prio, Protocol, Reason, Refusal, Reply, Step, TaskNo, Waiter};
use pim_manager::{ChangedPrio, ChangedTask, Done, HandedMutex, Manager, TrackedManager};
use std::alloc::Global;
use std::process::Abort;
use std::test::Fail;

pub(crate) const FIRST: MutexNo = MutexNo(1);

pub(crate) const SECOND: MutexNo = MutexNo(2);

const THIRD: MutexNo = MutexNo(3);

const FOURTH: MutexNo = MutexNo(4);

/// The step of this task.
pub(crate) fn by(actor: u16, op: Op) -> Step {
    let actor = TaskNo(actor);
    Step { actor, op }
}

pub(crate) fn made(
    rt: &impl Abort,
    alloc: Global,
    levels: &[u16],
    protocols: &[Protocol],
) -> Result<Manager, Fail> {
    let bases = prios(rt, alloc, levels)?;
    Ok(Manager::new(alloc, &bases, protocols)?)
}

pub(crate) fn tracked(
    rt: &impl Abort,
    alloc: Global,
    levels: &[u16],
    protocols: &[Protocol],
) -> Result<Box<TrackedManager>, Fail> {
    let bases = prios(rt, alloc, levels)?;
    Ok(TrackedManager::new(alloc, &bases, protocols)?)
}

/// Task 1 locks mutex 1, and task 2 waits for it.
fn contention() -> [Step; 2] {
    [by(1, Lock(FIRST)), by(2, Lock(FIRST))]
}

fn expect_tasks(rt: &impl Abort, manager: &Manager) {
    assert!(rt; [manager.tasks(), manager.mutexes()] == [2, 2]);
    let one = TaskNo(1);
    assert!(rt; [manager.effective(one), manager.base(one)] == [Prio::new(90), Prio::new(10)]);
    let donated = Reason::Waiter(TaskNo(2), FIRST);
    assert!(rt; [manager.reason(one), manager.reason(TaskNo(3))] == [Some(donated), None]);
    let waits = [manager.waits_for(one), manager.waits_for(TaskNo(2))];
    assert!(rt; waits == [Some(None), Some(Some(FIRST))]);
}

fn expect_mutexes(rt: &impl Abort, manager: &Manager) {
    let owners = [manager.owner(FIRST), manager.owner(SECOND)];
    assert!(rt; owners == [Some(Some(TaskNo(1))), Some(None)]);
    assert!(rt; [manager.count(FIRST), manager.count(THIRD)] == [Some(1), None]);
    assert!(rt; manager.protocol(FIRST) == Some(Inherit));
    let (task, prio, ticket) = (TaskNo(2), prio(rt, 90), 1);
    assert!(rt; manager.waiters(FIRST) == Some(&[Waiter { task, prio, ticket }][..]));
}

#[test]
fn run_leaves_an_owner_a_waiter_and_a_donation(rt: HostRuntime) -> Result<(), Fail> {
    let mut manager = made(&rt, rt.alloc(), &[10, 90], &[Inherit, Protocol::None])?;
    manager.run(&contention());
    expect_tasks(&rt, &manager);
    expect_mutexes(&rt, &manager);
    assert!(rt; manager.next_ticket() == 2);
    Ok(())
}

#[test]
fn run_returns_its_replies(rt: HostRuntime) -> Result<(), Fail> {
    let mut manager = made(&rt, rt.alloc(), &[10, 90], &[Inherit])?;
    let replies = manager.run_replies(rt.alloc(), &contention())?;
    assert!(rt; replies.as_slice() == &[Granted, Queued][..]);
    Ok(())
}

/// Tests that only the copy has changed.
fn expect_own_way(rt: &impl Abort, manager: &Manager, copy: &mut Manager) {
    assert!(rt; copy.has_state_of(manager));
    copy.step(by(1, Unlock(FIRST)));
    assert!(rt; !copy.has_state_of(manager));
    let owners = [manager.owner(FIRST), copy.owner(FIRST)];
    assert!(rt; owners == [Some(Some(TaskNo(1))), Some(Some(TaskNo(2)))]);
}

#[test]
fn copy_has_the_same_state_and_goes_its_own_way(rt: HostRuntime) -> Result<(), Fail> {
    let mut manager = made(&rt, rt.alloc(), &[10, 90], &[Inherit])?;
    manager.run(&contention());
    let mut copy = manager.try_clone(rt.alloc())?;
    expect_own_way(&rt, &manager, &mut copy);
    Ok(())
}

/// Why a task has its priority, in plain numbers.
#[derive(Clone, Copy)]
pub(crate) enum Why {
    Base,
    /// The ceiling of this mutex.
    Ceiling(u16),
    /// This task waits for this mutex.
    Waiter(u16, u16),
}

/// A task that a step changes, its priority then, and why.
pub(crate) type Listed = (u16, u16, Why);

/// A step, its reply, how many visits it makes, and the tasks whose priority it changes.
#[derive(Clone, Copy)]
struct Row(u16, Op, Reply, u32, &'static [Listed]);

fn reason(why: Why) -> Reason {
    match why {
        Why::Base => Reason::Base,
        Why::Ceiling(mutex) => Reason::Ceiling(MutexNo(mutex)),
        Why::Waiter(task, mutex) => Reason::Waiter(TaskNo(task), MutexNo(mutex)),
    }
}

pub(crate) fn expect_changed(rt: &impl Abort, tracked: &TrackedManager, expected: &[Listed]) {
    let (mut changed, mut prios) = (tracked.changed(), tracked.changed_prios());
    for (task, level, why) in expected {
        let listed = ChangedTask {
            task: TaskNo(*task),
            prio: prio(rt, *level),
            reason: reason(*why),
        };
        assert!(rt; changed.next() == Some(listed), "{task}");
        let ChangedTask { task, prio, .. } = listed;
        assert!(rt;
            prios.next() == Some(ChangedPrio { task, prio }),
            "{task:?}"
        );
    }
    assert!(rt; changed.next().is_none() && prios.next().is_none());
    assert!(rt; tracked.changed_count() as usize == expected.len());
}

/// Makes the step of a row on a manager of each kind, and tests what both return, and what the tracked one lists.
fn expect_row(rt: &impl Abort, tracked: &mut TrackedManager, manager: &mut Manager, row: &Row) {
    let (step, reply, visits) = (by(row.0, row.1), row.2, row.3);
    let done = tracked.step(step);
    assert!(rt; done == Done { reply, visits }, "{step:?}");
    assert!(rt; manager.step(step) == done, "{step:?}");
    expect_changed(rt, tracked, row.4);
}

/// Makes the steps on managers of these tasks and mutexes.
fn play(
    rt: &impl Abort,
    alloc: Global,
    levels: &[u16],
    protocols: &[Protocol],
    rows: &[Row],
) -> Result<(), Fail> {
    let mut manager = made(rt, alloc, levels, protocols)?;
    let mut tracked = tracked(rt, alloc, levels, protocols)?;
    for row in rows {
        expect_row(rt, &mut tracked, &mut manager, row);
    }
    Ok(())
}

/// Steps of tasks 1 to 3, of bases 10, 20 and 90, over two INHERIT mutexes, and two with ceilings 40 and 95.
const STEPS: [Row; 24] = [
    Row(1, Lock(FIRST), Granted, 0, &[]),
    Row(2, Lock(SECOND), Granted, 0, &[]),
    Row(2, Lock(FIRST), Queued, 1, &[(1, 20, BY_SECOND)]),
    Row(3, Try(SECOND), Refused(Refusal::Busy), 0, &[]),
    Row(
        3,
        Lock(SECOND),
        Queued,
        2,
        &[(1, 90, BY_SECOND), (2, 90, BY_THIRD)],
    ),
    Row(1, Lock(SECOND), Refused(Refusal::Deadlock), 0, &[]),
    Row(
        3,
        Cancel(TaskNo(3)),
        Withdrawn,
        2,
        &[(1, 20, BY_SECOND), (2, 20, Why::Base)],
    ),
    Row(
        1,
        Unlock(FIRST),
        Handed(TaskNo(2)),
        1,
        &[(1, 10, Why::Base)],
    ),
    Row(1, SetBase(TaskNo(2), 30), Set, 1, &[(2, 30, Why::Base)]),
    // Both mutexes become free: the actor alone is visited, once.
    Row(2, ReleaseAll, Released(2), 1, &[]),
    Row(1, Lock(FIRST), Granted, 0, &[]),
    Row(1, Lock(SECOND), Granted, 0, &[]),
    Row(2, Lock(FIRST), Queued, 1, &[(1, 30, BY_SECOND)]),
    Row(3, Lock(SECOND), Queued, 1, &[(1, 90, BY_THIRD)]),
    // The actor is visited once. No other task waits for either mutex, so the new owners keep their priorities.
    Row(1, ReleaseAll, Released(2), 1, &[(1, 10, Why::Base)]),
    Row(1, ReleaseAll, Released(0), 0, &[]),
    Row(1, Lock(THIRD), Granted, 1, &[(1, 40, Why::Ceiling(3))]),
    Row(1, Lock(FOURTH), Granted, 1, &[(1, 95, Why::Ceiling(4))]),
    Row(2, Lock(THIRD), Queued, 0, &[]),
    Row(3, Lock(FOURTH), Queued, 0, &[]),
    // Each new owner rises to the ceiling of its mutex, and is visited once. Then the actor is, once.
    Row(1, ReleaseAll, Released(2), 3, RELEASED),
    Row(1, Lock(THIRD), Queued, 0, &[]),
    // The new owner rises to the ceiling, and the old one falls to its base.
    Row(
        2,
        Unlock(THIRD),
        Handed(TaskNo(1)),
        2,
        &[(1, 40, Why::Ceiling(3)), (2, 30, Why::Base)],
    ),
    Row(
        1,
        SetCeiling(THIRD, 30),
        Set,
        1,
        &[(1, 30, Why::Ceiling(3))],
    ),
];

/// Task 2 waits for mutex 1.
const BY_SECOND: Why = Why::Waiter(2, 1);

/// Task 3 waits for mutex 2.
const BY_THIRD: Why = Why::Waiter(3, 2);

/// The actor falls to its base, and its waiters rise to the ceilings of their mutexes.
const RELEASED: &[Listed] = &[
    (1, 10, Why::Base),
    (2, 40, Why::Ceiling(3)),
    (3, 95, Why::Ceiling(4)),
];

#[test]
fn steps_make_few_visits_and_list_what_they_change(rt: HostRuntime) -> Result<(), Fail> {
    let protocols = [
        Inherit,
        Inherit,
        Protocol::Protect(prio(&rt, 40)),
        Protocol::Protect(prio(&rt, 95)),
    ];
    play(&rt, rt.alloc(), &[10, 20, 90], &protocols, &STEPS)
}

/// Tests that the last step handed over exactly these mutexes, each to this task.
fn expect_handed(rt: &impl Abort, tracked: &TrackedManager, expected: &[(u16, u16)]) {
    let mut handed = tracked.handed();
    for (mutex, task) in expected {
        let wanted = HandedMutex {
            mutex: MutexNo(*mutex),
            task: TaskNo(*task),
        };
        assert!(rt; handed.next() == Some(wanted), "{mutex}");
    }
    assert!(rt; handed.next().is_none());
}

/// Steps of tasks 1 to 4, each with what it lists and what it hands over: mutex 1 to task 2 by an unlock, and of the
/// three mutexes of task 1 then two by its release.
const HANDING: [(Row, &[(u16, u16)]); 11] = [
    (Row(1, Lock(FIRST), Granted, 0, &[]), &[]),
    (Row(2, Lock(FIRST), Queued, 1, &[(1, 20, BY_SECOND)]), &[]),
    (
        Row(
            1,
            Unlock(FIRST),
            Handed(TaskNo(2)),
            1,
            &[(1, 10, Why::Base)],
        ),
        &[(1, 2)],
    ),
    (Row(2, Unlock(FIRST), Freed, 0, &[]), &[]),
    (Row(1, Lock(FIRST), Granted, 0, &[]), &[]),
    (Row(1, Lock(SECOND), Granted, 0, &[]), &[]),
    (Row(1, Lock(THIRD), Granted, 0, &[]), &[]),
    (Row(2, Lock(FIRST), Queued, 1, &[(1, 20, BY_SECOND)]), &[]),
    (
        Row(4, Lock(THIRD), Queued, 1, &[(1, 90, Why::Waiter(4, 3))]),
        &[],
    ),
    (
        Row(1, ReleaseAll, Released(3), 1, &[(1, 10, Why::Base)]),
        &[(1, 2), (3, 4)],
    ),
    (Row(1, ReleaseAll, Released(0), 0, &[]), &[]),
];

#[test]
fn mutexes_that_a_step_hands_over_are_listed(rt: HostRuntime) -> Result<(), Fail> {
    let (levels, protocols) = ([10, 20, 30, 90], [Inherit, Inherit, Inherit]);
    let mut manager = made(&rt, rt.alloc(), &levels, &protocols)?;
    let mut tracked = tracked(&rt, rt.alloc(), &levels, &protocols)?;
    for (row, handed) in &HANDING {
        expect_row(&rt, &mut tracked, &mut manager, row);
        expect_handed(&rt, &tracked, handed);
    }
    Ok(())
}

/// Steps of tasks 1 to 3, of bases 10, 20 and 30, over an INHERIT mutex, when only one ticket is left.
const LAST_TICKET: [Row; 4] = [
    Row(1, Lock(FIRST), Granted, 0, &[]),
    Row(2, Lock(FIRST), Queued, 1, &[(1, 20, BY_SECOND)]),
    Row(3, Lock(FIRST), Refused(Refusal::Tickets), 0, &[]),
    Row(3, Try(FIRST), Refused(Refusal::Busy), 0, &[]),
];

/// Tests that the last ticket isn't given out.
fn expect_last_ticket(rt: &impl Abort, manager: &Manager) {
    assert!(rt; manager.next_ticket() == u64::MAX);
}

#[test]
fn last_ticket_but_one_is_given_out_and_no_more(rt: HostRuntime) -> Result<(), Fail> {
    let bases = prios(&rt, rt.alloc(), &[10, 20, 30])?;
    let next = u64::MAX - 1;
    let mut manager = Manager::with_next_ticket(rt.alloc(), &bases, &[Inherit], next)?;
    let mut tracked = TrackedManager::with_next_ticket(rt.alloc(), &bases, &[Inherit], next)?;
    for row in &LAST_TICKET {
        expect_row(&rt, &mut tracked, &mut manager, row);
    }
    expect_last_ticket(&rt, &manager);
    Ok(())
}

/// Tests that only a free mutex gets another protocol.
fn expect_protocols(rt: &impl Abort, manager: &mut Manager) {
    let answers = [
        manager.set_protocol(FIRST, Protocol::None),
        manager.set_protocol(THIRD, Protocol::None),
        manager.set_protocol(SECOND, Inherit),
    ];
    assert!(rt; answers == [Err(Refusal::Busy), Err(Refusal::NoMutex), Ok(())]);
    let protocols = [manager.protocol(FIRST), manager.protocol(SECOND)];
    assert!(rt; protocols == [Some(Inherit); 2]);
}

#[test]
fn only_a_free_mutex_gets_another_protocol(rt: HostRuntime) -> Result<(), Fail> {
    let mut manager = made(&rt, rt.alloc(), &[10, 90], &[Inherit, Protocol::None])?;
    manager.run(&contention());
    expect_protocols(&rt, &mut manager);
    Ok(())
}

/// Tests that a protocol that is refused leaves the list, and one that is set empties it.
fn expect_list(rt: &impl Abort, tracked: &mut TrackedManager) {
    let refused = tracked.set_protocol(FIRST, Protocol::None);
    assert!(rt; refused == Err(Refusal::Busy));
    expect_changed(rt, tracked, &[(1, 90, BY_SECOND)]);
    let set = tracked.set_protocol(SECOND, Inherit);
    assert!(rt; set == Ok(()));
    expect_changed(rt, tracked, &[]);
    assert!(rt; tracked.manager().protocol(SECOND) == Some(Inherit));
}

#[test]
fn protocol_that_is_set_empties_the_list_of_changes(rt: HostRuntime) -> Result<(), Fail> {
    let mut tracked = tracked(&rt, rt.alloc(), &[10, 90], &[Inherit, Protocol::None])?;
    tracked.step(by(1, Lock(FIRST)));
    tracked.step(by(2, Lock(FIRST)));
    expect_list(&rt, &mut tracked);
    Ok(())
}
