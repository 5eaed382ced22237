//! Queues that exchange their room. Of 6 tasks and 4 mutexes the queues have room for 6, 3, 2 and 1 waiters at first.

use crate::manager::{FIRST, by, made};
use Op::{Cancel, Lock};
use Reply::{Granted, Queued, Withdrawn};
use pim_base::{MutexNo, Op, Protocol, Reply, TaskNo};
use pim_manager::Manager;
use std::alloc::Global;
use std::process::Abort;
use std::test::Fail;

const THIRD: MutexNo = MutexNo(3);

/// Makes a manager of 6 tasks at 50, of which task 1 owns all 4 mutexes.
fn of_six(rt: &impl Abort, alloc: Global) -> Result<Manager, Fail> {
    let mut manager = made(rt, alloc, &[50; 6], &[Protocol::Inherit; 4])?;
    for number in 1u16..5 {
        let reply = manager.step(by(1, Lock(MutexNo(number)))).reply;
        assert!(rt; reply == Granted, "{number}");
    }
    Ok(manager)
}

/// Lets these tasks wait for the mutex.
fn wait(rt: &impl Abort, manager: &mut Manager, mutex: MutexNo, tasks: &[u16]) {
    for task in tasks {
        let reply = manager.step(by(*task, Lock(mutex))).reply;
        assert!(rt; reply == Queued, "{task}");
    }
}

/// Withdraws these tasks.
fn withdraw(rt: &impl Abort, manager: &mut Manager, tasks: &[u16]) {
    for task in tasks {
        let reply = manager.step(by(1, Cancel(TaskNo(*task)))).reply;
        assert!(rt; reply == Withdrawn, "{task}");
    }
}

/// Tests that these tasks wait for the mutex, in this order, with these tickets.
fn expect(rt: &impl Abort, manager: &Manager, mutex: MutexNo, tasks: &[(u16, u64)]) {
    let waiters = manager.waiters(mutex).expect(rt, "a known mutex");
    assert!(rt; waiters.len() == tasks.len(), "{}", waiters.len());
    for (waiter, (task, ticket)) in waiters.iter().zip(tasks) {
        assert!(rt;
            waiter.task == TaskNo(*task) && waiter.ticket == *ticket,
            "{task}"
        );
    }
}

/// Mutex 3 gets a third waiter, and the room of mutex 1, which has a waiter.
#[test]
fn outgrown_room_is_exchanged(rt: HostRuntime) -> Result<(), Fail> {
    let mut manager = of_six(&rt, rt.alloc())?;
    wait(&rt, &mut manager, FIRST, &[6]);
    wait(&rt, &mut manager, THIRD, &[2, 3, 4, 5]);
    expect(&rt, &manager, FIRST, &[(6, 1)]);
    expect(&rt, &manager, THIRD, &[(2, 2), (3, 3), (4, 4), (5, 5)]);
    let copy = manager.try_clone(rt.alloc())?;
    expect(&rt, &copy, FIRST, &[(6, 1)]);
    expect(&rt, &copy, THIRD, &[(2, 2), (3, 3), (4, 4), (5, 5)]);
    Ok(())
}

/// The largest room goes from mutex 1 to mutex 3, back and forth again, and a waiter stays all the time. Mutex 1 has the
/// room of mutex 2 in the meantime.
#[test]
fn room_goes_back_and_forth(rt: HostRuntime) -> Result<(), Fail> {
    let mut manager = of_six(&rt, rt.alloc())?;
    wait(&rt, &mut manager, THIRD, &[2, 3, 4, 5, 6]);
    withdraw(&rt, &mut manager, &[5, 3, 6, 4]);
    wait(&rt, &mut manager, FIRST, &[3, 4, 5, 6]);
    expect(&rt, &manager, THIRD, &[(2, 1)]);
    expect(&rt, &manager, FIRST, &[(3, 6), (4, 7), (5, 8), (6, 9)]);
    withdraw(&rt, &mut manager, &[3, 4, 6]);
    wait(&rt, &mut manager, THIRD, &[3, 4, 6]);
    expect(&rt, &manager, FIRST, &[(5, 8)]);
    expect(&rt, &manager, THIRD, &[(2, 1), (3, 10), (4, 11), (6, 12)]);
    Ok(())
}
