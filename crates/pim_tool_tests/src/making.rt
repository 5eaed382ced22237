//! What the tests are made of: steps, managers, scripts.

use pim_base::{Entry, MAX_WORKERS, MutexNo, Op, Prio, Protocol, Reply, Step, TaskNo};
use pim_manager::Manager;
use pim_shared::{Gate, Looker, Shared, SharedFault, run_scripts};
use std::alloc::Global;
use std::process::Abort;
use std::sync::Wait;
use std::thread::Threads;

pub const FIRST: MutexNo = MutexNo(1);

pub const SECOND: MutexNo = MutexNo(2);

/// The step of this task.
pub fn by(actor: u16, op: Op) -> Step {
    Step {
        actor: TaskNo(actor),
        op,
    }
}

/// The entry of a step and its reply.
///
/// It is a function since the generated proof copies a step only as an argument.
pub fn entry(step: Step, reply: Reply) -> Entry {
    Entry { step, reply }
}

/// The step of task 1 that sets the base of this task.
pub fn base(task: u16, level: u16) -> Step {
    by(1, Op::SetBase(TaskNo(task), level))
}

/// A manager of tasks with these bases and of mutexes with these protocols.
pub fn made(rt: &impl Abort, alloc: Global, bases: &[u16], protocols: &[Protocol]) -> Manager {
    let mut prios = Vec::new(alloc);
    for level in bases {
        let prio = Prio::new(*level).expect(rt, "a priority");
        prios.push(prio).expect(rt, "memory");
    }
    Manager::new(alloc, &prios, protocols).expect(rt, "memory")
}

/// A shared manager of two tasks with the bases 10 and 20, and one mutex.
pub fn shared<R: Wait + Abort>(
    rt: &R,
    alloc: Global,
    room: usize,
    lookers: u16,
) -> (Shared, Vec<Looker>) {
    let manager = made(rt, alloc, &[10, 20], &[Protocol::None]);
    Shared::new(rt, alloc, manager, room, lookers).expect(rt, "memory and places")
}

/// The scripts with these lines, task 1's first.
pub fn scripts_of(rt: &impl Abort, alloc: Global, scripts: &[&[Op]]) -> Vec<Vec<Op>> {
    let mut all = Vec::new(alloc);
    for lines in scripts {
        let script = lines.to_vec(alloc).expect(rt, "memory");
        all.push(script).expect(rt, "memory");
    }
    all
}

/// Runs the scripts with these lines over the gate, and returns what that answers.
pub fn run_lines<G: Gate + Sync, R: Threads + Wait + Abort + Sync>(
    rt: &R,
    alloc: Global,
    gate: &G,
    scripts: &[&[Op]],
) -> Result<(), SharedFault> {
    let scripts = scripts_of(rt, alloc, scripts);
    assert!(rt; scripts.len() <= MAX_WORKERS);
    run_scripts(rt, alloc, gate, &scripts)
}
