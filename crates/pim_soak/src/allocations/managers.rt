//! The calls of a manager.

use super::{Failure, expect, expect_right};
use pim_base::{MutexNo, Op, Prio, Protocol, Refusal, Reply, Step, TaskNo};
use pim_manager::{MakeFault, Manager, TrackedManager};
use std::alloc::Global;

/// The protocols of both mutexes.
pub const PROTOCOLS: [Protocol; 2] = [Protocol::Inherit, Protocol::None];

/// Returns the bases of three tasks.
pub fn bases() -> [Prio; 3] {
    [Prio::new(10).unwrap(); 3]
}

/// Returns the step in which the task locks mutex 1.
pub fn lock(task: u16) -> Step {
    Step {
        actor: TaskNo(task),
        op: Op::Lock(MutexNo(1)),
    }
}

/// Makes a manager of three tasks, whose two mutexes are free.
pub fn free(alloc: Global) -> Result<Manager, Failure> {
    Manager::new(alloc, &bases(), &PROTOCOLS).map_err(|_fault| Failure::Before)
}

/// Makes a manager whose task 1 owns mutex 1, for which task 2 waits.
pub fn waited_for(alloc: Global) -> Result<Manager, Failure> {
    let mut manager = free(alloc)?;
    manager.run(&[lock(1), lock(2)]);
    Ok(manager)
}

/// Fails unless what was made is right, unless an allocation failed, which must be the fault.
fn expect_made(is_right: Result<bool, MakeFault>) -> Result<(), Failure> {
    if let Err(fault) = is_right {
        expect(fault == MakeFault::Memory)?;
    }
    expect_right(is_right.ok())
}

/// Returns whether there are three tasks of base 10, two free mutexes, and this next ticket.
fn is_free(manager: &Manager, next: u64) -> bool {
    let counts = (manager.tasks(), manager.mutexes(), manager.next_ticket());
    let last = MutexNo(2);
    counts == (3, 2, next)
        && manager.base(TaskNo(3)) == Prio::new(10)
        && manager.protocol(last) == Some(Protocol::None)
        && manager.owner(last) == Some(None)
}

/// Returns whether the manager is free, with this next ticket.
fn shown(made: Result<Manager, MakeFault>, next: u64) -> Result<bool, MakeFault> {
    match made {
        Ok(manager) => Ok(is_free(&manager, next)),
        Err(fault) => Err(fault),
    }
}

pub(crate) fn new(alloc: Global) -> Result<(), Failure> {
    let bases = bases();
    let made = Manager::new(alloc, &bases, &PROTOCOLS);
    expect_made(shown(made, 1))
}

pub(crate) fn with_next_ticket(alloc: Global) -> Result<(), Failure> {
    let bases = bases();
    let made = Manager::with_next_ticket(alloc, &bases, &PROTOCOLS, 7);
    expect_made(shown(made, 7))
}

/// Returns whether task 1 owns mutex 1, and task 2 alone waits for it.
pub fn is_waited_for(manager: &Manager) -> bool {
    let waits = (manager.waits_for(TaskNo(2)), manager.waits_for(TaskNo(3)));
    manager.owner(MutexNo(1)) == Some(Some(TaskNo(1)))
        && waits == (Some(Some(MutexNo(1))), Some(None))
        && manager.next_ticket() == 2
}

pub(crate) fn try_clone(alloc: Global) -> Result<(), Failure> {
    let mut manager = waited_for(alloc)?;
    let copy = manager.try_clone(alloc);
    // The manager steps on, whether it was copied or not.
    let after = (manager.step(lock(3)).reply, manager.next_ticket());
    drop(manager);
    let is_copy = match copy {
        Ok(copy) => Some(is_waited_for(&copy)),
        Err(_error) => None,
    };
    expect(after == (Reply::Queued, 3))?;
    expect_right(is_copy)
}

/// Returns the number of replies of task 3, which locks mutex 1 again and again, and the first of them.
fn replied(alloc: Global, manager: &mut Manager) -> Option<(usize, Option<Reply>)> {
    let replies = manager.run_replies(alloc, &[lock(3); 100]).ok()?;
    Some((replies.len(), replies.first().copied()))
}

pub(crate) fn run_replies(alloc: Global) -> Result<(), Failure> {
    let mut manager = waited_for(alloc)?;
    let replied = replied(alloc, &mut manager);
    let is_unchanged = is_waited_for(&manager);
    let after = (manager.next_ticket(), manager.step(lock(3)).reply);
    drop(manager);
    let Some(replies) = replied else {
        expect(is_unchanged && after == (2, Reply::Queued))?;
        return Err(Failure::InCall);
    };
    expect(replies == (100, Some(Reply::Queued)))?;
    expect(after == (3, Reply::Refused(Refusal::Waiting)))?;
    Ok(())
}

/// Returns whether a step that raises task 2, which waits for task 1, is one that changes both.
fn changes_two(made: Result<Box<TrackedManager>, MakeFault>) -> Result<bool, MakeFault> {
    match made {
        Ok(mut tracked) => {
            tracked.step(lock(1));
            tracked.step(lock(2));
            tracked.step(Step {
                actor: TaskNo(1),
                op: Op::SetBase(TaskNo(2), 50),
            });
            Ok(tracked.changed().count() == 2)
        }
        Err(fault) => Err(fault),
    }
}

pub(crate) fn tracked_manager(alloc: Global) -> Result<(), Failure> {
    let bases = bases();
    let made = TrackedManager::new(alloc, &bases, &PROTOCOLS);
    expect_made(changes_two(made))
}
