//! pim_queue: the calls of a queue, and where a waiter goes whose priority changes.

use crate::priorities::prio;
use pim_base::{TaskNo, Waiter};
use pim_queue::Queue;
use std::alloc::{AllocError, Global};
use std::process::Abort;
use std::test::Fail;

/// Inserts a waiter, for whom there must be room.
pub(crate) fn insert(rt: &impl Abort, queue: &mut Queue, waiter: Waiter) {
    assert!(rt; queue.has_room());
    assert!(rt; !queue.contains(waiter.task) && !queue.has_ticket(waiter.ticket));
    queue.insert(waiter);
}

/// Returns a queue with this room and these waiters, each a task with its level and its ticket.
fn queue_of(
    rt: &impl Abort,
    alloc: Global,
    room: u16,
    waiters: &[(u16, u16, u64)],
) -> Result<Queue, AllocError> {
    let mut queue = Queue::new(alloc, room)?;
    for (task, level, ticket) in waiters {
        let (task, prio) = (TaskNo(*task), prio(rt, *level));
        let ticket = *ticket;
        insert(rt, &mut queue, Waiter { task, prio, ticket });
    }
    Ok(queue)
}

/// Tests that exactly these tasks wait, in this order.
fn expect_tasks(rt: &impl Abort, queue: &Queue, name: &str, tasks: &[u16]) {
    let waiters = queue.as_slice();
    assert!(rt; waiters.len() == tasks.len(), "{name}");
    for (waiter, task) in waiters.iter().zip(tasks) {
        assert!(rt; waiter.task == TaskNo(*task), "{name}: {task}");
    }
}

/// Tests the full queue of tasks 2, 3 and 1.
fn expect_full(rt: &impl Abort, queue: &Queue) {
    expect_tasks(rt, queue, "full", &[2, 3, 1]);
    let second = Waiter {
        task: TaskNo(2),
        prio: prio(rt, 50),
        ticket: 8,
    };
    assert!(rt; [queue.front(), queue.waiter_of(TaskNo(2))] == [Some(second); 2]);
    let known = [
        queue.contains(TaskNo(3)),
        queue.has_ticket(9),
        queue.has_room(),
    ];
    assert!(rt; known == [true, true, false]);
}

/// Removes task 3 by its number, and then task 2 by its waiter.
fn expect_removed(rt: &impl Abort, queue: &mut Queue) {
    assert!(rt; queue.contains(TaskNo(3)));
    let third = queue.remove(TaskNo(3));
    assert!(rt; third.ticket == 9);
    expect_tasks(rt, queue, "without task 3", &[2, 1]);
    let second = queue.waiter_of(TaskNo(2)).expect(rt, "task 2 waits");
    queue.remove_waiter(&second);
    expect_tasks(rt, queue, "without task 2", &[1]);
}

#[test]
fn removed_waiters_are_gone_and_a_copy_keeps_them(rt: HostRuntime) -> Result<(), Fail> {
    let mut queue = queue_of(&rt, rt.alloc(), 3, &[(1, 10, 7), (2, 50, 8), (3, 50, 9)])?;
    let copy = queue.try_clone(rt.alloc())?;
    expect_removed(&rt, &mut queue);
    expect_full(&rt, &copy);
    Ok(())
}

/// What happens to a queue, the tasks that get another priority, and all tasks in order then.
#[derive(Clone, Copy)]
struct Move(&'static str, &'static [(u16, u16)], &'static [u16]);

/// Moves in a queue of tasks 1 to 4, which have priorities 40, 30, 20 and 10, and tickets 7, 9, 8 and 6.
const MOVES: [Move; 9] = [
    Move("raised to the front", &[(4, 50)], &[4, 1, 2, 3]),
    Move("raised in the middle", &[(4, 25)], &[1, 2, 4, 3]),
    Move("raised to a greater ticket", &[(3, 30)], &[1, 3, 2, 4]),
    Move("lowered to the end", &[(1, 5)], &[2, 3, 4, 1]),
    Move("lowered in the middle", &[(1, 15)], &[2, 3, 1, 4]),
    Move("lowered to a smaller ticket", &[(2, 20)], &[1, 3, 2, 4]),
    Move("in its place", &[(2, 35), (2, 25)], &[1, 2, 3, 4]),
    Move("first and last", &[(1, 99), (4, 1)], &[1, 2, 3, 4]),
    Move("to the front and back", &[(4, 50), (4, 10)], &[1, 2, 3, 4]),
];

/// Gives a waiting task another priority, by its number or by its waiter.
fn reposition(rt: &impl Abort, queue: &mut Queue, task: TaskNo, level: u16, by_waiter: bool) {
    if by_waiter {
        let waiter = queue.waiter_of(task).expect(rt, "it waits");
        queue.reposition_waiter(&waiter, prio(rt, level));
    } else {
        assert!(rt; queue.contains(task));
        queue.reposition(task, prio(rt, level));
    }
}

fn expect_moved(
    rt: &impl Abort,
    alloc: Global,
    one: Move,
    by_waiter: bool,
) -> Result<(), AllocError> {
    let waiters = [(1, 40, 7), (2, 30, 9), (3, 20, 8), (4, 10, 6)];
    let mut queue = queue_of(rt, alloc, 4, &waiters)?;
    for (task, level) in one.1 {
        reposition(rt, &mut queue, TaskNo(*task), *level, by_waiter);
    }
    expect_tasks(rt, &queue, one.0, one.2);
    Ok(())
}

#[test]
fn waiter_with_another_priority_goes_to_its_place(rt: HostRuntime) -> Result<(), Fail> {
    for one in MOVES {
        expect_moved(&rt, rt.alloc(), one, false)?;
        expect_moved(&rt, rt.alloc(), one, true)?;
    }
    Ok(())
}
