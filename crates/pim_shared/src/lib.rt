//! A manager that many threads call, a log of all calls with their replies, and wait-free readers.
//!
//! [`Shared`] has a manager behind one lock. A call makes one step, logs it with its reply and publishes it. The lock
//! guards a [`Book`]. Its type keeps that the log is a run of the model from the start to the current manager, and that the
//! log is the published list. [`Shared::finish`] returns the manager and the [`Log`]. A [`Looker`] is a wait-free reader of
//! the last published version. It never goes back, and returns the model's priority and reason after a list of entries.
//! [`Shared::call_with`] makes a call and then reads with the caller's reader, before another call can be made.
//!
//! ```text
//! let (shared, mut lookers) = Shared::new(&rt, alloc, manager, 200, 1)?; // room for 200 entries, one reader
//! shared.call(&rt, Step { actor: TaskNo(1), op: Op::Lock(MutexNo(1)) })?; // Granted
//! shared.call(&rt, Step { actor: TaskNo(2), op: Op::Lock(MutexNo(1)) })?; // Queued
//! lookers[0].look(TaskNo(1))?; // Some(Seen { steps: 2, prio, reason: Reason::Waiter(TaskNo(2), MutexNo(1)) })
//! let (manager, log) = shared.finish(&rt); // two entries
//! ```
#![tactic(auto)]

mod book;
mod gate;
mod gathering;
mod log;
mod looker;
mod publisher;
mod rule;
mod shared;
mod version;
mod workers;

pub use book::Book;
pub use gate::{Gate, Settled};
pub use gathering::gather;
pub use log::Log;
pub use looker::{Looker, Seen};
pub use pim_manager::SharedFault;
pub use shared::Shared;
pub use workers::{run_scripts, worker};
