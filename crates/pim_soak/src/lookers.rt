//! Lookers, which are wait-free readers. Each reads all the time, in a thread of its own, and records what it saw.

ghost use Rattle.std.specs.Prelude.{◌≤◌, length};
ghost use Rattle.pim_base.specs.declared.limits.TheConstants.{MAX_WORKERS};

use crate::crowd::Crowd;
use crate::figures::count;
use pim_base::{Op, Prio, Reason, TaskNo};
use pim_shared::{Looker, SharedFault, run_scripts};
use std::alloc::Global;
use std::sync::Wait;
use std::sync::atomic::{AtomicBool, Ordering};
use std::thread;
use std::thread::Threads;

/// How many reads each looker makes at least, while the workers run or after they have finished.
const LEAST_LOOKS: u64 = 1_000;

/// A read of a task: how many entries it saw, and the task's priority and reason after them.
#[derive(Clone, Copy, PartialEq, Eq)]
pub struct Look {
    pub task: TaskNo,
    pub steps: u64,
    pub prio: Prio,
    pub reason: Reason,
}

/// What one looker saw.
#[derive(Drop)]
pub struct Record {
    /// The reads of known tasks, in order. A read that returned the same as the one before of that task is left out.
    pub told: Vec<Look>,
    /// How many reads the looker made.
    pub looks: u64,
    /// How many reads were wrong: they saw fewer entries than the read before, found an unknown task, didn't find a
    /// known one, failed, or couldn't be recorded.
    pub wrong: u64,
    /// How many entries the last read saw.
    pub steps: u64,
}

impl Record {
    /// Returns the record of a looker before its first read.
    pub fn new(alloc: Global) -> Record {
        Record {
            told: Vec::new(alloc),
            looks: 0,
            wrong: 0,
            steps: 0,
        }
    }

    /// Reads each of the tasks 1 to `tasks`, and the unknown task 0.
    fn look_round(&mut self, looker: &mut Looker, tasks: u16) {
        for number in 1..=tasks {
            self.look(looker, TaskNo(number));
        }
        count(&mut self.looks, 1);
        if looker.look(TaskNo(0)) != Ok(None) {
            count(&mut self.wrong, 1);
        }
    }

    /// Reads once more after the run, which must return `Closed`.
    fn expect_closed(&mut self, looker: &mut Looker) {
        if looker.look(TaskNo(1)) != Err(SharedFault::Closed) {
            count(&mut self.wrong, 1);
        }
    }

    /// Reads a known task.
    fn look(&mut self, looker: &mut Looker, task: TaskNo) {
        count(&mut self.looks, 1);
        match looker.look(task) {
            Ok(Some(seen)) if seen.steps >= self.steps => {
                self.keep(task, seen.steps, seen.prio, seen.reason);
            }
            _ => count(&mut self.wrong, 1),
        }
    }

    /// Records what was seen of the task, unless the last read of it returned the same.
    fn keep(&mut self, task: TaskNo, steps: u64, prio: Prio, reason: Reason) {
        self.steps = steps;
        let look = Look {
            task,
            steps,
            prio,
            reason,
        };
        if !self.has_told(&look) && self.told.push(look).is_err() {
            count(&mut self.wrong, 1);
        }
    }

    /// Returns whether the last read of the same task returned the same.
    fn has_told(&self, look: &Look) -> bool {
        for last in self.told.iter().rev() {
            if last.task == look.task {
                return last == look;
            }
        }
        false
    }
}

/// Makes the last read of each looker, which must return `Closed`.
pub fn expect_all_closed(mut lookers: Vec<Looker>, records: &mut [Record]) {
    for (looker, record) in lookers.iter_mut().zip(records) {
        record.expect_closed(looker);
    }
}

/// Reads the tasks again and again: at least `LEAST_LOOKS` times, and each task once after all workers have finished.
fn watch<R: Wait>(
    rt: &R,
    looker: &mut Looker,
    record: &mut Record,
    tasks: u16,
    ended: &AtomicBool,
) {
    for _ in rt.forever() {
        let is_last = ended.load(Ordering::SeqCst) && record.looks >= LEAST_LOOKS;
        record.look_round(looker, tasks);
        thread::yield_now();
        if is_last {
            return;
        }
    }
}

/// Runs the scripts of the scene while each looker reads, in a thread of its own.
///
/// # Errors
///
/// The errors of `run_scripts`.
pub fn run_beside_lookers<R: Threads + Wait + Sync>(
    rt: &R,
    alloc: Global,
    crowd: &Crowd<'_>,
    scripts: &[Vec<Op>],
    lookers: &mut [Looker],
    records: &mut [Record],
) -> Result<(), SharedFault>
    requires { length scripts.now ≤ MAX_WORKERS }
{
    let ended = AtomicBool::new(false);
    let (ended, tasks) = (&ended, scripts.len() as u16);
    thread::scope(
        thread::scope_env(),
        rt,
        |scope| -> Result<(), SharedFault>
            requires { length scripts.now ≤ MAX_WORKERS }
        {
            for (looker, record) in lookers.iter_mut().zip(records) {
                let _started = scope.spawn(move || watch(rt, looker, record, tasks, ended));
            }
            let answer = run_scripts(rt, alloc, crowd, scripts);
            ended.store(true, Ordering::SeqCst);
            answer
        },
    )
}
