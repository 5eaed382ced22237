//! The parts of a manager: its tables and its queues, and their copies.

use super::managers::{PROTOCOLS, bases};
use super::{Failure, expect, expect_right};
use pim_base::{MutexNo, Prio, TaskNo, Waiter};
use pim_chain::Tables;
use pim_queue::Queue;
use std::alloc::{AllocError, Global};

/// Returns whether there are three tasks of base 10 and two mutexes, for which nobody waits.
fn are_fresh(tables: &Tables) -> bool {
    let waiting = tables.queue(MutexNo(2)).map(|queue| queue.as_slice().len());
    tables.stored(TaskNo(3)) == Prio::new(10)
        && tables.stored(TaskNo(4)).is_none()
        && waiting == Some(0)
        && tables.queue(MutexNo(3)).is_none()
}

/// Returns whether the tables are fresh, or `None` if there are none.
fn shown(made: Result<Tables, AllocError>) -> Option<bool> {
    let tables = made.ok()?;
    Some(are_fresh(&tables))
}

pub(crate) fn made_tables(alloc: Global) -> Result<(), Failure> {
    let bases = bases();
    let made = Tables::new(alloc, &bases, &PROTOCOLS);
    expect_right(shown(made))
}

pub(crate) fn copied_tables(alloc: Global) -> Result<(), Failure> {
    let bases = bases();
    let made = Tables::new(alloc, &bases, &PROTOCOLS);
    let tables = made.map_err(|_error| Failure::Before)?;
    let is_copy = shown(tables.try_clone(alloc));
    let are_unchanged = are_fresh(&tables);
    drop(tables);
    expect(are_unchanged)?;
    expect_right(is_copy)
}

/// Lets task 1 wait at 10, with ticket 7, if it may.
fn insert(queue: &mut Queue) {
    let (task, ticket) = (TaskNo(1), 7);
    let prio = Prio::new(10).unwrap();
    if queue.has_room() && !queue.contains(task) && !queue.has_ticket(ticket) {
        queue.insert(Waiter { task, prio, ticket });
    }
}

/// Returns a queue with room for 2, in which task 1 waits, unless an allocation failed.
fn queue_of_one(alloc: Global) -> Result<Queue, AllocError> {
    let mut queue = Queue::new(alloc, 2)?;
    insert(&mut queue);
    Ok(queue)
}

/// Returns whether task 1 waits, with its priority and its ticket, and there is room for another one.
fn has_one(queue: &Queue) -> bool {
    match queue.as_slice() {
        [one] => {
            one.task == TaskNo(1) && one.prio.get() == 10 && one.ticket == 7 && queue.has_room()
        }
        _ => false,
    }
}

/// Returns whether the queue has its one waiter, or `None` if there is no queue.
fn has_one_if_made(made: Result<Queue, AllocError>) -> Option<bool> {
    let queue = made.ok()?;
    Some(has_one(&queue))
}

pub(crate) fn made_queue(alloc: Global) -> Result<(), Failure> {
    let made = queue_of_one(alloc);
    expect_right(has_one_if_made(made))
}

pub(crate) fn copied_queue(alloc: Global) -> Result<(), Failure> {
    let queue = queue_of_one(alloc).map_err(|_error| Failure::Before)?;
    let is_copy = has_one_if_made(queue.try_clone(alloc));
    let is_unchanged = has_one(&queue);
    drop(queue);
    expect(is_unchanged)?;
    expect_right(is_copy)
}
