//! Workers: each makes the steps of one task's script in its own thread.

ghost use Rattle.std.specs.Prelude.{◌≡◌, ◌≤◌, length};
ghost use Rattle.pim_base.specs.declared.limits.TheConstants.{MAX_WORKERS};
ghost use Rattle.pim_shared.specs.Outcomes.{outcome_of};

use crate::SharedFault;
use crate::gate::Gate;
use pim_base::{MutexNo, Op, Reply, Step, TaskNo};
use std::alloc::Global;
use std::sync::Wait;
use std::thread;
use std::thread::Threads;

/// Makes the steps of a task: each line by one call, in order, and then one release of all its mutexes. After a queued
/// lock it waits until the task has left the queue. It goes on whether the task owns the mutex then or was withdrawn.
///
/// # Errors
///
/// The first fault of the gate, which ends it.
pub fn worker<G: Gate, R: Wait>(
    gate: &G,
    rt: &R,
    task: TaskNo,
    lines: &[Op],
) -> Result<(), SharedFault> {
    for op in lines {
        let reply = gate.call(
            rt,
            Step {
                actor: task,
                op: *op,
            },
        )?;
        if reply == Reply::Queued
            && let Some(mutex) = mutex_to_wait_for(op)
        {
            gate.settle(rt, task, mutex)?;
        }
    }
    gate.call(
        rt,
        Step {
            actor: task,
            op: Op::ReleaseAll,
        },
    )?;
    Ok(())
}

/// Returns the mutex that the operation waits for if it is queued, and `None` if it never is.
fn mutex_to_wait_for(op: &Op) -> Option<MutexNo> {
    match op {
        Op::Lock(mutex) => Some(*mutex),
        Op::Try(_)
        | Op::Unlock(_)
        | Op::ReleaseAll
        | Op::Cancel(_)
        | Op::SetBase(..)
        | Op::SetCeiling(..) => None,
    }
}

/// Runs one worker for each script, each in its own thread: the first script is task 1's, the second task 2's, and so on.
/// Returns when all have ended.
///
/// # Errors
///
/// The fault of the least task whose fault isn't `Closed`, else `Closed` if any worker met it. A worker's fault is one of
/// the gate, or `Memory` if its thread couldn't be started. `Memory` also if there is none for the answers: then no worker
/// starts.
pub fn run_scripts<G: Gate + Sync, R: Threads + Wait + Sync>(
    rt: &R,
    alloc: Global,
    gate: &G,
    scripts: &[Vec<Op>],
) -> Result<(), SharedFault>
    requires { length scripts.now ≤ MAX_WORKERS }
{
    // The answer of a worker that isn't started.
    let mut answers = Vec::from_elem(alloc, Err(SharedFault::Memory), scripts.len())?;
    thread::scope(thread::scope_env(), rt, |scope| {
        for (task, (script, answer)) in (1..).zip(scripts.iter().zip(&mut answers)) {
            let lines = script.as_slice();
            let _started = scope.spawn(move || *answer = worker(gate, rt, TaskNo(task), lines));
        }
    });
    outcome_of(&answers)
}

/// Returns the first fault that isn't `Closed`, else `Closed` if any answer has it, else `Ok`.
fn outcome_of(answers: &[Result<(), SharedFault>]) -> Result<(), SharedFault>
    ensures { result ≡ outcome_of answers.now }
{
    let mut closed = false;
    for answer in answers {
        match answer {
            Ok(()) => {}
            Err(SharedFault::Closed) => closed = true,
            Err(fault) => return Err(*fault),
        }
    }
    if closed {
        Err(SharedFault::Closed)
    } else {
        Ok(())
    }
}
