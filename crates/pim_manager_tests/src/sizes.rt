//! Queues, tables and managers of 0 to 256 tasks and mutexes, and managers of one more. Each call that allocates has
//! ample memory, and succeeds.

use crate::priorities::prio;
use crate::queue::insert;
use pim_base::{MAX_MUTEXES, MAX_TASKS, Prio, Protocol, TaskNo, Waiter};
use pim_chain::Tables;
use pim_manager::{MakeFault, Manager};
use pim_queue::Queue;
use std::alloc::{AllocError, Global};
use std::process::Abort;
use std::test::Fail;

/// Fills a queue with so many waiters, the last one first.
fn full_queue(rt: &impl Abort, alloc: Global, count: u16, prio: Prio) -> Result<Queue, AllocError> {
    let mut queue = Queue::new(alloc, count)?;
    for behind in 0..count {
        let number = count - behind;
        let (task, ticket) = (TaskNo(number), u64::from(number));
        insert(rt, &mut queue, Waiter { task, prio, ticket });
    }
    Ok(queue)
}

/// Tests that tasks 1 to `count` wait, in this order, and that there is room for no more.
fn expect_full(rt: &impl Abort, queue: &Queue, count: u16) {
    assert!(rt; queue.as_slice().len() == count as usize, "{count}");
    assert!(rt; !queue.has_room(), "{count}");
    for (number, waiter) in (1u16..257).zip(queue.as_slice()) {
        assert!(rt; waiter.task == TaskNo(number), "{number} of {count}");
    }
}

#[test]
fn queues_hold_0_to_256_waiters(rt: HostRuntime) -> Result<(), Fail> {
    for count in 0u16..257 {
        let queue = full_queue(&rt, rt.alloc(), count, prio(&rt, 50))?;
        expect_full(&rt, &queue, count);
        let copy = queue.try_clone(rt.alloc())?;
        expect_full(&rt, &copy, count);
    }
    Ok(())
}

/// Returns the numbers of tasks and mutexes of new tables and of a copy of them.
fn tables_of(
    rt: &impl Abort,
    alloc: Global,
    bases: &[Prio],
    protocols: &[Protocol],
) -> Result<[(u16, u16); 2], AllocError> {
    assert!(rt; bases.len() <= MAX_TASKS && protocols.len() <= MAX_MUTEXES);
    let tables = Tables::new(alloc, bases, protocols)?;
    let copy = tables.try_clone(alloc)?;
    Ok([
        (tables.tasks(), tables.mutexes()),
        (copy.tasks(), copy.mutexes()),
    ])
}

/// Numbers of tasks or of mutexes, about those at which a word of a set begins.
const COUNTS: [u16; 8] = [0, 1, 2, 64, 65, 128, 255, 256];

#[test]
fn tables_have_0_to_256_tasks_and_mutexes(rt: HostRuntime) -> Result<(), Fail> {
    for tasks in COUNTS {
        for mutexes in COUNTS {
            let bases = vec![in rt.alloc(); prio(&rt, 50); tasks as usize]?;
            let protocols = vec![in rt.alloc(); Protocol::Inherit; mutexes as usize]?;
            let counts = tables_of(&rt, rt.alloc(), &bases, &protocols)?;
            assert!(rt; counts == [(tasks, mutexes); 2]);
        }
    }
    Ok(())
}

/// How many tasks and mutexes a manager has, and its next ticket.
type Sizes = (u16, u16, u64);

/// Returns the sizes of a manager that is made of these, with 7 as the next ticket.
fn manager_of(alloc: Global, bases: &[Prio], protocols: &[Protocol]) -> Result<Sizes, MakeFault> {
    let manager = Manager::with_next_ticket(alloc, bases, protocols, 7)?;
    Ok((manager.tasks(), manager.mutexes(), manager.next_ticket()))
}

/// So many tasks and so many mutexes, and what is made of them.
const MANAGERS: [(usize, usize, Result<Sizes, MakeFault>); 4] = [
    (0, 0, Ok((0, 0, 7))),
    (256, 256, Ok((256, 256, 7))),
    (257, 257, Err(MakeFault::TooManyTasks)),
    (256, 257, Err(MakeFault::TooManyMutexes)),
];

#[test]
fn managers_have_0_to_256_tasks_and_mutexes_and_no_more(rt: HostRuntime) -> Result<(), Fail> {
    for (tasks, mutexes, expected) in MANAGERS {
        let bases = vec![in rt.alloc(); prio(&rt, 1); tasks]?;
        let protocols = vec![in rt.alloc(); Protocol::Inherit; mutexes]?;
        let sizes = manager_of(rt.alloc(), &bases, &protocols);
        assert!(rt; sizes == expected, "{tasks} tasks, {mutexes} mutexes");
    }
    Ok(())
}
