//! A gate at which workers meet.

use pim_base::{MutexNo, Reply, Step, TaskNo};
use pim_shared::{Gate, Settled, Shared, SharedFault};
use std::sync::Wait;
use std::thread;

/// A gate before a shared manager that lets other threads run after each call, so that workers wait for one another.
/// Without it most workers finish their whole script before the next one is started.
#[derive(Drop)]
pub struct Crowd<'a> {
    shared: &'a Shared,
}

impl<'a> Crowd<'a> {
    /// Returns the gate before this shared manager.
    pub fn new(shared: &'a Shared) -> Crowd<'a> {
        Crowd { shared }
    }
}

impl Gate for Crowd<'_> {
    fn call<R: Wait>(&self, rt: &R, step: Step) -> Result<Reply, SharedFault> {
        let answer = self.shared.call(rt, step);
        thread::yield_now();
        answer
    }

    fn settle<R: Wait>(
        &self,
        rt: &R,
        task: TaskNo,
        mutex: MutexNo,
    ) -> Result<Settled, SharedFault> {
        self.shared.settle(rt, task, mutex)
    }
}
