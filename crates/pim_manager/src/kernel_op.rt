//! What a kernel asks for itself.

use pim_base::{MutexNo, TaskNo};

/// What a kernel may ask for itself, where no task asks: in an interrupt, in a shell, or in the idle thread.
///
/// A trace has no line for it, since a task makes each of its steps.
#[derive(Clone, Copy, Debug, PartialEq, Eq)]
pub enum KernelOp {
    /// Withdraws the task, which waits, from its queue, as `Op::Cancel` does.
    Cancel(TaskNo),
    /// Sets the base priority of the task to this level, 1 to 99, as `Op::SetBase` does.
    SetBase(TaskNo, u16),
    /// Sets the ceiling of the PROTECT mutex, which is free, to this level, 1 to 99, as `Op::SetCeiling` does.
    SetCeiling(MutexNo, u16),
}
