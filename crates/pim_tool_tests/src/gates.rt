//! Gates that replace a manager.

use Op::{Cancel, Lock, ReleaseAll, SetBase, SetCeiling, Try, Unlock};
use pim_base::{MutexNo, Op, Reply, Step, TaskNo};
use pim_shared::{Gate, Settled, SharedFault};
use std::alloc::Global;
use std::process::Abort;
use std::sync::atomic::{AtomicU64, Ordering};
use std::sync::{Mutex, Wait};
use std::thread;

/// A call of a gate: a step, or `settle`, with the number of its task.
#[derive(Clone, Copy, PartialEq, Eq)]
pub enum Call {
    Step(u16, Op),
    Settle(u16, MutexNo),
}

/// What `settle` answers.
pub type Settling = Result<Settled, SharedFault>;

/// A gate that keeps the calls in order, and answers `Full` to those for which it has no room. All locks and tries have
/// one reply, and all other steps another one.
#[derive(Drop)]
pub struct Recorder {
    calls: Mutex<Vec<Call>>,
    room: usize,
    pub locked: Reply,
    pub freed: Reply,
    pub settled: Settling,
}

impl Recorder {
    /// Returns a gate that queues each lock and each try, and frees the rest.
    pub fn new(rt: &impl Abort, alloc: Global, room: usize) -> Recorder {
        let calls = Vec::with_capacity(alloc, room).expect(rt, "memory");
        Recorder {
            calls: Mutex::new(calls),
            room,
            locked: Reply::Queued,
            freed: Reply::Freed,
            settled: Ok(Settled::Owns),
        }
    }

    fn keep<R: Wait>(&self, rt: &R, call: Call) -> Result<(), SharedFault> {
        let mut calls = self.calls.lock(rt);
        if calls.len() >= self.room {
            return Err(SharedFault::Full);
        }
        if calls.push(call).is_err() {
            return Err(SharedFault::Memory);
        }
        Ok(())
    }

    /// Returns the calls that were kept.
    pub fn into_calls(self) -> Vec<Call> {
        self.calls.into_inner()
    }
}

impl Gate for Recorder {
    fn call<R: Wait>(&self, rt: &R, step: Step) -> Result<Reply, SharedFault> {
        let Step { actor, op } = step;
        let reply = match op {
            Lock(_) | Try(_) => self.locked,
            Unlock(_) | ReleaseAll | Cancel(_) | SetBase(..) | SetCeiling(..) => self.freed,
        };
        self.keep(rt, Call::Step(actor.get(), op))?;
        Ok(reply)
    }

    fn settle<R: Wait>(
        &self,
        rt: &R,
        task: TaskNo,
        mutex: MutexNo,
    ) -> Result<Settled, SharedFault> {
        self.keep(rt, Call::Settle(task.get(), mutex))?;
        self.settled
    }
}

/// A gate with a fault for some tasks, task 1 first. It frees for the others.
#[derive(Drop)]
pub struct Refusing {
    pub faults: [Option<SharedFault>; 3],
}

impl Gate for Refusing {
    fn call<R: Wait>(&self, _rt: &R, step: Step) -> Result<Reply, SharedFault> {
        match step.actor.get() {
            1 => self.faults[0],
            2 => self.faults[1],
            _ => self.faults[2],
        }
        .map_or(Ok(Reply::Freed), Err)
    }

    fn settle<R: Wait>(&self, _rt: &R, _task: TaskNo, _mutex: MutexNo) -> Settling {
        Ok(Settled::Owns)
    }
}

/// A gate that holds each call until another one arrives, for at most 1,000,000 turns. Then it returns `Torn`.
#[derive(Drop)]
pub struct Rendezvous {
    calls: AtomicU64,
}

impl Rendezvous {
    /// Returns a gate that nobody has called.
    pub fn new() -> Rendezvous {
        Rendezvous {
            calls: AtomicU64::new(0),
        }
    }
}

impl Gate for Rendezvous {
    fn call<R: Wait>(&self, _rt: &R, _step: Step) -> Result<Reply, SharedFault> {
        self.calls.fetch_add(1, Ordering::SeqCst);
        for _turn in 0..1_000_000 {
            if self.calls.load(Ordering::SeqCst) >= 2 {
                return Ok(Reply::Freed);
            }
            thread::yield_now();
        }
        Err(SharedFault::Torn)
    }

    fn settle<R: Wait>(&self, _rt: &R, _task: TaskNo, _mutex: MutexNo) -> Settling {
        Ok(Settled::Owns)
    }
}
