//! A manager that grants mutexes to tasks, with the three protocols of POSIX.1-2017, for a single thread.
//!
//! A [`Manager`] keeps the owners and the waiters, each queue in order, and the priority at which each task would
//! execute. [`Manager::step`] answers one request: the reply and the state after it are those of the definitions. It
//! computes only the priorities that the step may change, and [`Done::visits`] counts them. Steps never allocate, and
//! between two calls there is never a cycle of waits. A [`TrackedManager`] also lists the tasks whose priority the last
//! step changed, each with its priority and, on request, the reason, and the mutexes that it handed over.
//!
//! A low task owns the mutex that a high one requests. So it executes at the high priority, and a medium one can't
//! delay it:
//!
//! ```text
//! let mut manager = Manager::new(alloc, &[low, medium, high], &[Protocol::Inherit])?;
//! manager.step(Step { actor: TaskNo(1), op: Op::Lock(MutexNo(1)) }); // Granted
//! manager.step(Step { actor: TaskNo(3), op: Op::Lock(MutexNo(1)) }); // Queued
//! manager.effective(TaskNo(1)); // Some(high), which is above medium
//! manager.reason(TaskNo(1)); // Some(Reason::Waiter(TaskNo(3), MutexNo(1)))
//! manager.waits_for(TaskNo(3)); // Some(Some(MutexNo(1)))
//! manager.step(Step { actor: TaskNo(1), op: Op::Unlock(MutexNo(1)) }); // Handed(TaskNo(3))
//! manager.effective(TaskNo(1)); // Some(low)
//! ```
#![tactic(auto)]

mod adopt_fault;
mod changed_prios;
mod changed_tasks;
mod done;
mod handed_mutexes;
mod kernel_op;
mod make_fault;
mod manager;
mod released;
mod runs;
mod shared_fault;
mod steps;
mod tracked_manager;

pub use adopt_fault::AdoptFault;
pub use changed_prios::{ChangedPrio, ChangedPrios};
pub use changed_tasks::{ChangedTask, ChangedTasks};
pub use done::Done;
pub use handed_mutexes::{HandedMutex, HandedMutexes};
pub use kernel_op::KernelOp;
pub use make_fault::MakeFault;
pub use manager::Manager;
pub use shared_fault::SharedFault;
pub use tracked_manager::TrackedManager;
