//! Why a task can't adopt a mutex.

use thiserror::Error;

/// Why a task can't adopt a mutex. The first that applies is returned.
#[derive(Clone, Copy, Debug, PartialEq, Eq, Error)]
pub enum AdoptFault {
    /// The task is unknown.
    #[error("no task")]
    NoTask,
    /// The mutex is unknown.
    #[error("no mutex")]
    NoMutex,
    /// The mutex is a PROTECT one: its ceiling would change the task's priority.
    #[error("protect")]
    Protect,
    /// A task owns the mutex, this one included.
    #[error("busy")]
    Busy,
}
