//! pim_chain: what tables show, and the calls that change one fact and need no walk.

ghost use Rattle.std.specs.Prelude.{◌≡◌, None, IfOk};
ghost use Rattle.pim_chain.specs.Views.{stored_at};
ghost use Rattle.pim_chain.specs.Settled.{SettledBut};

use crate::priorities::prio;
use crate::walks::{enqueue, expect_changed, grant, tables};
use pim_base::{MutexNo, Prio, Protocol, Reason, TaskNo, Wait};
use pim_chain::{Tables, Visits};
use std::alloc::{AllocError, Global};
use std::process::Abort;
use std::test::Fail;

const ONE: TaskNo = TaskNo(1);

const TWO: TaskNo = TaskNo(2);

const THREE: TaskNo = TaskNo(3);

/// A recursive mutex, which task 1 owns and task 2 waits for.
const FIRST: MutexNo = MutexNo(1);

/// A mutex with ceiling 50, which task 1 owns.
const SECOND: MutexNo = MutexNo(2);

/// A free NONE mutex.
const THIRD: MutexNo = MutexNo(3);

/// Returns tables of tasks 1 to 3, of bases 10, 20 and 90, and of the mutexes above.
fn owned(rt: &impl Abort, alloc: Global) -> Result<Tables, AllocError>
    ensures { IfOk result (λ tables. SettledBut tables.state (stored_at tables) None) }
{
    let protocols = [
        Protocol::InheritRecursive,
        Protocol::Protect(prio(rt, 50)),
        Protocol::None,
    ];
    let mut tables = tables(rt, alloc, &[10, 20, 90], &protocols)?;
    let mut visits = Visits::new();
    grant(rt, &mut tables, ONE, FIRST, &mut visits);
    grant(rt, &mut tables, ONE, SECOND, &mut visits);
    enqueue(rt, &mut tables, TWO, FIRST, &mut visits);
    Ok(tables)
}

/// The wait of task 2.
const WAIT: Wait = Wait {
    mutex: FIRST,
    ticket: 2,
};

fn expect_tasks(rt: &impl Abort, tables: &Tables) {
    assert!(rt; [tables.tasks(), tables.mutexes()] == [3, 3]);
    let levels = [tables.base(ONE), tables.stored(ONE), tables.base(TaskNo(4))];
    assert!(rt; levels == [Prio::new(10), Prio::new(50), None]);
    assert!(rt; [tables.waits_for(ONE), tables.waits_for(TWO)] == [None, Some(WAIT)]);
    assert!(rt; [tables.on_chain(TWO, ONE), tables.on_chain(ONE, TWO)] == [true, false]);
}

fn expect_mutexes(rt: &impl Abort, tables: &Tables) {
    let protocols = [tables.protocol(THIRD), tables.protocol(MutexNo(4))];
    assert!(rt; protocols == [Some(Protocol::None), None]);
    assert!(rt; [tables.ceiling(SECOND), tables.ceiling(FIRST)] == [Prio::new(50), None]);
    assert!(rt; [tables.owner(SECOND), tables.owner(THIRD)] == [Some(ONE), None]);
    assert!(rt; [tables.count(SECOND), tables.count(THIRD)] == [Some(1), Some(0)]);
    assert!(rt; [tables.has_ticket(FIRST, 2), tables.has_ticket(FIRST, 3)] == [true, false]);
}

/// Tests that task 2 waits, first and alone, for mutex 1.
fn expect_queue(rt: &impl Abort, tables: &Tables) {
    let queue = tables.queue(FIRST).expect(rt, "a known mutex");
    assert!(rt; queue.as_slice().len() == 1);
    assert!(rt; !tables.is_unknown_mutex(FIRST));
    assert!(rt; tables.known_first(FIRST) == queue.front());
}

/// Tests the calls for a known task.
fn expect_known_task(rt: &impl Abort, tables: &Tables) {
    assert!(rt; !tables.is_unknown_task(ONE) && tables.is_unknown_task(TaskNo(4)));
    let levels = [tables.known_base(ONE).get(), tables.known_stored(ONE).get()];
    assert!(rt; levels == [10, 50]);
    assert!(rt; tables.known_wait(ONE).is_none() && !tables.known_on_chain(ONE, TWO));
    let mut owned = tables.owned(ONE);
    assert!(rt; [owned.next(), owned.next(), owned.next()] == [Some(FIRST), Some(SECOND), None]);
    let mut visits = Visits::new();
    let local = tables.local(ONE, &mut visits).get();
    assert!(rt; (local, visits.get()) == (50, 1));
}

/// Tests the calls for a known mutex.
fn expect_known_mutex(rt: &impl Abort, tables: &Tables) {
    assert!(rt; !tables.is_unknown_mutex(SECOND) && tables.is_unknown_mutex(MutexNo(4)));
    assert!(rt; !tables.is_unknown_task(THREE));
    assert!(rt; tables.known_owner(SECOND) == Some(ONE));
    assert!(rt; tables.known_protocol(SECOND).ceiling() == Prio::new(50));
    let answers = [
        tables.known_owns(ONE, SECOND),
        tables.known_above_ceiling(THREE, SECOND),
        tables.known_kept(SECOND),
    ];
    assert!(rt; answers == [true, true, false]);
}

/// Tests that a ceiling is the reason, and a base.
fn expect_reasons(rt: &impl Abort, tables: &Tables)
    requires { SettledBut tables.now.state (stored_at tables.now) None }
{
    assert!(rt; !tables.is_unknown_task(ONE) && !tables.is_unknown_task(TWO));
    let reasons = [tables.reason(ONE), tables.reason(TWO)];
    assert!(rt; reasons == [Reason::Ceiling(SECOND), Reason::Base]);
}

#[test]
fn tables_show_tasks_mutexes_and_reasons(rt: HostRuntime) -> Result<(), Fail> {
    let tables = owned(&rt, rt.alloc())?;
    expect_reasons(&rt, &tables);
    expect_tasks(&rt, &tables);
    expect_mutexes(&rt, &tables);
    expect_queue(&rt, &tables);
    expect_known_task(&rt, &tables);
    expect_known_mutex(&rt, &tables);
    expect_changed(&rt, &Visits::new(), &[]);
    assert!(rt; Visits::new().noted_count() == 0);
    Ok(())
}

/// Counts a second lock of mutex 1.
fn count_up(rt: &impl Abort, tables: &mut Tables) {
    assert!(rt; tables.owner(FIRST) == Some(ONE));
    assert!(rt; tables.known_relocks(ONE, FIRST, ONE));
    assert!(rt; tables.count_of(FIRST) == 1);
    tables.count_up(FIRST);
}

/// Takes the second lock back.
fn count_down(rt: &impl Abort, tables: &mut Tables) {
    assert!(rt; !tables.is_unknown_mutex(FIRST));
    assert!(rt; tables.count_of(FIRST) == 2);
    assert!(rt; tables.known_kept(FIRST));
    tables.count_down(FIRST);
    assert!(rt; tables.count(FIRST) == Some(1));
}

#[test]
fn locks_of_a_recursive_mutex_are_counted(rt: HostRuntime) -> Result<(), Fail> {
    let mut tables = owned(&rt, rt.alloc())?;
    count_up(&rt, &mut tables);
    count_down(&rt, &mut tables);
    Ok(())
}

/// Mutex 3 gets an owner, and then none.
fn bind_and_unbind(rt: &impl Abort, tables: &mut Tables) {
    assert!(rt; !tables.is_unknown_task(ONE) && !tables.is_unknown_mutex(THIRD));
    assert!(rt; tables.waits_for(ONE).is_none() && tables.owner(THIRD).is_none());
    tables.bind(THIRD, ONE);
    assert!(rt; tables.owner(THIRD) == Some(ONE));
    tables.unbind(THIRD);
    assert!(rt; tables.owner(THIRD).is_none());
}

/// Mutex 3, which is free, becomes an INHERIT one, and the next ticket is 10.
fn put(rt: &impl Abort, tables: &mut Tables) {
    assert!(rt; !tables.is_unknown_mutex(THIRD) && tables.owner(THIRD).is_none());
    tables.put_protocol(THIRD, Protocol::Inherit);
    assert!(rt; tables.protocol(THIRD) == Some(Protocol::Inherit));
    let next = tables.next_ticket();
    tables.put_next_ticket(10);
    assert!(rt; [next, tables.next_ticket()] == [1, 10]);
}

#[test]
fn copy_keeps_the_state_that_it_had(rt: HostRuntime) -> Result<(), Fail> {
    let mut tables = owned(&rt, rt.alloc())?;
    let copy = tables.try_clone(rt.alloc())?;
    bind_and_unbind(&rt, &mut tables);
    assert!(rt; copy.has_state_of(&tables));
    put(&rt, &mut tables);
    assert!(rt; !copy.has_state_of(&tables));
    Ok(())
}
