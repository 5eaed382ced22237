//! What is measured: a manager, and the steps that change it.

use pim_base::{MutexNo, Op, Prio, Protocol, Step, TaskNo};
use pim_manager::Manager;
use std::alloc::Global;
use std::io;

/// Returns a manager of 16 tasks and as many INHERIT mutexes, in which task 1 owns mutex 1 and task 2 waits for it.
pub fn manager(alloc: Global) -> io::Result<Manager> {
    let Some(base) = Prio::new(10) else {
        return Err(io::Error::from(io::ErrorKind::InvalidInput));
    };
    let Ok(mut manager) = Manager::new(alloc, &[base; 16], &[Protocol::Inherit; 16]) else {
        return Err(io::Error::from(io::ErrorKind::OutOfMemory));
    };
    for task in [1, 2] {
        let op = Op::Lock(MutexNo(1));
        manager.step(Step {
            actor: TaskNo(task),
            op,
        });
    }
    Ok(manager)
}

/// Returns the step that raises or lowers task 2, by turns, and with it task 1.
pub fn change(turn: u64) -> Step {
    let prio = if turn % 2 == 0 { 70 } else { 20 };
    Step {
        actor: TaskNo(3),
        op: Op::SetBase(TaskNo(2), prio),
    }
}
