//! A plain, slow manager of mutexes: the contract of each of its functions is one definition of pim_base.
//!
//! Its type is [`PlainManager`]: what is declared, owned and waited for. It stores no priority and no queue, and
//! computes each chain, priority, queue and reason from scratch. So a reader can compare a fast manager, or a log,
//! with code that does nothing but what the definitions say. One step costs some tasks * tasks * mutexes looks.
//! pim_soak judges traces with it, which `tests/suite` compares with the reports of `pim`.
//!
//! ```
//! let mut plain = PlainManager::new(alloc, &[low, high], &[Protocol::Inherit], 1)?;
//! plain.step(Step { actor: TaskNo(1), op: Op::Lock(MutexNo(1)) }); // Granted
//! plain.step(Step { actor: TaskNo(2), op: Op::Lock(MutexNo(1)) }); // Queued
//! plain.effective(TaskNo(1)); // Some(high)
//! plain.reason(TaskNo(1)); // Some(Reason::Waiter(TaskNo(2), MutexNo(1)))
//! ```
#![tactic(auto)]

mod chains;
mod checks;
mod plain_manager;
mod priorities;
mod queues;
mod reasons;
mod steps;

pub use plain_manager::PlainManager;
