//! pim_chain: the calls that walk, each with its visits, the stored priorities and the tasks that changed.

ghost use Rattle.std.specs.Prelude.{◌≡◌, None, Some, IfOk};
ghost use Rattle.pim_base.specs.Chains.{blocker};
ghost use Rattle.pim_chain.specs.Views.{stored_at};
ghost use Rattle.pim_chain.specs.Settled.{SettledBut};

use crate::priorities::{prio, prios};
use pim_base::{MAX_MUTEXES, MAX_TASKS, MutexNo, Prio, Protocol, TaskNo};
use pim_chain::{Tables, Visits};
use std::alloc::{AllocError, Global};
use std::process::Abort;
use std::test::Fail;

/// A change, in plain numbers: the task first, then the mutex.
#[derive(Clone, Copy, Debug)]
enum Act {
    /// The task gets the free mutex.
    Grant(u16, u16),
    /// The task begins to wait for the mutex.
    Enqueue(u16, u16),
    /// The task stops waiting.
    Withdraw(u16),
    /// The task begins to wait for the mutex, and a walk begins at the owner.
    Join(u16, u16),
    /// The task stops waiting, and a walk begins at the owner.
    Leave(u16),
    /// The task gets this base, and a walk begins there.
    Base(u16, u16),
    /// The mutex gets this ceiling, and a walk begins at the owner.
    Ceiling(u16, u16),
    /// The mutex goes to this task, if any.
    HandOver(u16, Option<u16>),
    /// The task hands over all mutexes that it owns: so many.
    Release(u16, u16),
}

/// A change, how many visits it takes, the stored priority of task 1, task 2 and so on after it, and the tasks whose
/// priority changed.
#[derive(Clone, Copy)]
pub(crate) struct Row(Act, u32, [u16; 4], &'static [u16]);

/// Returns tables of these tasks and mutexes.
pub(crate) fn tables(
    rt: &impl Abort,
    alloc: Global,
    levels: &[u16],
    protocols: &[Protocol],
) -> Result<Tables, AllocError>
    ensures { IfOk result (λ tables. SettledBut tables.state (stored_at tables) None) }
{
    let bases = prios(rt, alloc, levels)?;
    assert!(rt; bases.len() <= MAX_TASKS && protocols.len() <= MAX_MUTEXES);
    Tables::new(alloc, &bases, protocols)
}

/// Makes the walk from the task.
fn settle(rt: &impl Abort, tables: &mut Tables, task: TaskNo, visits: &mut Visits)
    requires { SettledBut tables.old.state (stored_at tables.old) (Some task) }
    ensures { SettledBut tables.new.state (stored_at tables.new) None }
{
    assert!(rt; !tables.is_unknown_task(task));
    assert!(rt; visits.get() < 1000);
    tables.settle_from(task, visits);
}

/// The task gets the free mutex.
pub(crate) fn grant(
    rt: &impl Abort,
    tables: &mut Tables,
    task: TaskNo,
    mutex: MutexNo,
    visits: &mut Visits,
)
    requires { SettledBut tables.old.state (stored_at tables.old) None }
    ensures { SettledBut tables.new.state (stored_at tables.new) None }
{
    assert!(rt; !tables.is_unknown_task(task) && !tables.is_unknown_mutex(mutex));
    assert!(rt; tables.waits_for(task).is_none() && tables.owner(mutex).is_none());
    assert!(rt; visits.get() < 1000);
    tables.grant(mutex, task, visits);
}

/// The task begins to wait for the mutex. Its number is its ticket.
pub(crate) fn enqueue(
    rt: &impl Abort,
    tables: &mut Tables,
    task: TaskNo,
    mutex: MutexNo,
    visits: &mut Visits,
)
    requires { SettledBut tables.old.state (stored_at tables.old) None }
    ensures { SettledBut tables.new.state (stored_at tables.new) None }
{
    let ticket = u64::from(task.get());
    assert!(rt; !tables.is_unknown_task(task) && !tables.is_unknown_mutex(mutex));
    assert!(rt; tables.waits_for(task).is_none() && !tables.has_ticket(mutex, ticket));
    assert!(rt; visits.get() < 1000);
    if let Some(owner) = tables.owner(mutex) {
        assert!(rt; !tables.on_chain(owner, task));
        tables.enqueue(task, mutex, owner, ticket, visits);
    }
}

/// The task stops waiting.
fn withdraw(rt: &impl Abort, tables: &mut Tables, task: TaskNo, visits: &mut Visits)
    requires { SettledBut tables.old.state (stored_at tables.old) None }
    ensures { SettledBut tables.new.state (stored_at tables.new) None }
{
    assert!(rt; visits.get() < 1000);
    if let Some(wait) = tables.waits_for(task) {
        if let Some(owner) = tables.owner(wait.mutex) {
            tables.withdraw(task, wait, owner, visits);
        }
    }
}

/// The task begins to wait for the mutex, and a walk begins at the owner. Its number is its ticket.
fn join(rt: &impl Abort, tables: &mut Tables, task: TaskNo, mutex: MutexNo, visits: &mut Visits)
    requires { SettledBut tables.old.state (stored_at tables.old) None }
    ensures { SettledBut tables.new.state (stored_at tables.new) None }
{
    let ticket = u64::from(task.get());
    assert!(rt; !tables.is_unknown_task(task) && !tables.is_unknown_mutex(mutex));
    assert!(rt; tables.waits_for(task).is_none() && !tables.has_ticket(mutex, ticket));
    if let Some(owner) = tables.owner(mutex) {
        assert!(rt; !tables.on_chain(owner, task));
        tables.join(task, mutex, ticket);
        settle(rt, tables, owner, visits);
    }
}

/// Returns the owner of the mutex that the task waits for.
fn blocker(tables: &Tables, task: TaskNo) -> Option<TaskNo>
    ensures { result ≡ blocker tables.now.state task }
{
    tables.owner(tables.waits_for(task)?.mutex)
}

/// The task stops waiting, and a walk begins at the owner.
fn leave(rt: &impl Abort, tables: &mut Tables, task: TaskNo, visits: &mut Visits)
    requires { SettledBut tables.old.state (stored_at tables.old) None }
    ensures { SettledBut tables.new.state (stored_at tables.new) None }
{
    assert!(rt; tables.waits_for(task).is_some());
    let owner = blocker(tables, task);
    tables.leave(task);
    if let Some(owner) = owner {
        settle(rt, tables, owner, visits);
    }
}

/// The task gets this base, and a walk begins there.
fn set_base(rt: &impl Abort, tables: &mut Tables, task: TaskNo, base: Prio, visits: &mut Visits)
    requires { SettledBut tables.old.state (stored_at tables.old) None }
    ensures { SettledBut tables.new.state (stored_at tables.new) None }
{
    assert!(rt; !tables.is_unknown_task(task));
    tables.put_base(task, base);
    settle(rt, tables, task, visits);
}

/// The mutex gets this ceiling, and a walk begins at the owner.
fn set_ceiling(
    rt: &impl Abort,
    tables: &mut Tables,
    mutex: MutexNo,
    ceiling: Prio,
    visits: &mut Visits,
)
    requires { SettledBut tables.old.state (stored_at tables.old) None }
    ensures { SettledBut tables.new.state (stored_at tables.new) None }
{
    assert!(rt; tables.ceiling(mutex).is_some());
    let owner = tables.owner(mutex);
    tables.put_ceiling(mutex, ceiling);
    if let Some(owner) = owner {
        settle(rt, tables, owner, visits);
    }
}

/// The mutex goes from its owner to the first waiter, which must be this task.
fn hand_over(
    rt: &impl Abort,
    tables: &mut Tables,
    mutex: MutexNo,
    new_owner: Option<u16>,
    visits: &mut Visits,
)
    requires { SettledBut tables.old.state (stored_at tables.old) None }
    ensures { SettledBut tables.new.state (stored_at tables.new) None }
{
    assert!(rt; visits.get() < 1000);
    if let Some(owner) = tables.owner(mutex) {
        assert!(rt; tables.waits_for(owner).is_none());
        let handed = tables.hand_over(mutex, owner, visits);
        assert!(rt; handed == new_owner.map(|task| TaskNo(task)));
    }
}

/// The task hands over all its mutexes, which must be so many.
fn release(rt: &impl Abort, tables: &mut Tables, task: TaskNo, count: u16, visits: &mut Visits)
    requires { SettledBut tables.old.state (stored_at tables.old) None }
    ensures { SettledBut tables.new.state (stored_at tables.new) None }
{
    assert!(rt; !tables.is_unknown_task(task) && tables.waits_for(task).is_none());
    assert!(rt; visits.get() < 1000);
    assert!(rt; tables.release_all(task, visits) == count);
}

fn change(rt: &impl Abort, tables: &mut Tables, act: Act, visits: &mut Visits)
    requires { SettledBut tables.old.state (stored_at tables.old) None }
    ensures { SettledBut tables.new.state (stored_at tables.new) None }
{
    match act {
        Act::Grant(task, mutex) => grant(rt, tables, TaskNo(task), MutexNo(mutex), visits),
        Act::Enqueue(task, mutex) => enqueue(rt, tables, TaskNo(task), MutexNo(mutex), visits),
        Act::Withdraw(task) => withdraw(rt, tables, TaskNo(task), visits),
        Act::Join(task, mutex) => join(rt, tables, TaskNo(task), MutexNo(mutex), visits),
        Act::Leave(task) => leave(rt, tables, TaskNo(task), visits),
        Act::Base(task, level) => set_base(rt, tables, TaskNo(task), prio(rt, level), visits),
        Act::Ceiling(mutex, level) => {
            set_ceiling(rt, tables, MutexNo(mutex), prio(rt, level), visits)
        }
        Act::HandOver(mutex, new_owner) => {
            hand_over(rt, tables, MutexNo(mutex), new_owner, visits)
        }
        Act::Release(task, count) => release(rt, tables, TaskNo(task), count, visits),
    }
}

/// Tests the stored priorities of tasks 1 to 4.
fn expect_stored(rt: &impl Abort, tables: &Tables, act: Act, levels: [u16; 4]) {
    for (task, level) in (1u16..5).zip(levels) {
        assert!(rt;
            tables.stored(TaskNo(task)) == Prio::new(level),
            "{act:?}: {task}"
        );
    }
}

/// Tests that exactly these tasks changed since the visits began.
pub(crate) fn expect_changed(rt: &impl Abort, visits: &Visits, tasks: &[u16]) {
    let mut changed = visits.noted();
    for task in tasks {
        assert!(rt; changed.next() == Some(TaskNo(*task)), "{task}");
    }
    assert!(rt; changed.next().is_none());
}

/// Makes the changes, and tests what each row says.
fn play(rt: &impl Abort, tables: &mut Tables, visits: &mut Visits, rows: &[Row])
    requires { SettledBut tables.old.state (stored_at tables.old) None }
{
    for row in rows {
        let act = row.0;
        visits.restart();
        assert!(rt; visits.get() == 0 && visits.noted_count() == 0, "{act:?}");
        change(rt, tables, act, visits);
        assert!(rt; visits.get() == row.1, "{act:?}");
        expect_stored(rt, tables, act, row.2);
        expect_changed(rt, visits, row.3);
    }
}

/// Tasks 1 to 4 have bases 10, 20, 30 and 90. Mutexes 1 and 3 are INHERIT ones, the latter recursive, and mutex 2 has
/// ceiling 50 at first.
const ROWS: [Row; 15] = [
    Row(Act::Grant(1, 1), 0, [10, 20, 30, 90], &[]),
    Row(Act::Grant(1, 2), 1, [50, 20, 30, 90], &[1]),
    Row(Act::Grant(2, 3), 0, [50, 20, 30, 90], &[]),
    // The owner has a higher priority already: a comparison shows it, and no walk begins.
    Row(Act::Enqueue(2, 1), 0, [50, 20, 30, 90], &[]),
    Row(Act::Withdraw(2), 0, [50, 20, 30, 90], &[]),
    Row(Act::Enqueue(2, 1), 0, [50, 20, 30, 90], &[]),
    Row(Act::Enqueue(4, 3), 2, [90, 90, 30, 90], &[1, 2]),
    Row(Act::Withdraw(4), 2, [50, 20, 30, 90], &[1, 2]),
    Row(Act::Join(4, 3), 2, [90, 90, 30, 90], &[1, 2]),
    Row(Act::Leave(4), 2, [50, 20, 30, 90], &[1, 2]),
    Row(Act::Base(2, 60), 2, [60, 60, 30, 90], &[1, 2]),
    Row(Act::Ceiling(2, 70), 1, [70, 60, 30, 90], &[1]),
    // The mutex gives less than the ceiling: neither owner is visited.
    Row(Act::HandOver(1, Some(2)), 0, [70, 60, 30, 90], &[]),
    Row(Act::Enqueue(1, 3), 1, [70, 70, 30, 90], &[2]),
    // Task 1 gets mutex 3, for which no other task waits.
    Row(Act::Release(2, 2), 1, [70, 60, 30, 90], &[2]),
];

#[test]
fn walks_visit_only_tasks_whose_priority_may_change(rt: HostRuntime) -> Result<(), Fail> {
    let protocols = [
        Protocol::Inherit,
        Protocol::Protect(prio(&rt, 50)),
        Protocol::InheritRecursive,
    ];
    let mut visits = Visits::with_notes(rt.alloc())?;
    let mut tables = tables(&rt, rt.alloc(), &[10, 20, 30, 90], &protocols)?;
    play(&rt, &mut tables, &mut visits, &ROWS);
    Ok(())
}
