//! What a worker calls: a manager behind a lock, or a replacement for it.

use crate::SharedFault;
use pim_base::{MutexNo, Reply, Step, TaskNo};
use std::sync::Wait;

/// How a task left a queue.
#[derive(Clone, Copy, Debug, PartialEq, Eq)]
pub enum Settled {
    /// It owns the mutex.
    Owns,
    /// It doesn't own the mutex: it was withdrawn from the queue, or was never in it.
    Withdrawn,
}

/// A manager that many threads may call at the same time.
pub trait Gate {
    /// Makes one step and returns its reply. This may wait for the calls of other threads.
    ///
    /// # Errors
    ///
    /// Those of the manager behind the gate; the step isn't made then.
    fn call<R: Wait>(&self, rt: &R, step: Step) -> Result<Reply, SharedFault>;

    /// Waits until the task waits for nothing, and returns whether it owns the mutex then.
    ///
    /// # Errors
    ///
    /// Those of the manager behind the gate. The task may still wait then.
    fn settle<R: Wait>(&self, rt: &R, task: TaskNo, mutex: MutexNo) -> Result<Settled, SharedFault>;
}
