//! Why no manager was made.

ghost use Rattle.std.specs.Prelude.{◌≡◌};
ghost use Rattle.pim_manager.specs.declared.make_fault.MakeFault.TheVariants.{Memory};

use std::alloc::AllocError;
use thiserror::Error;

/// Why no manager was made. The first that applies is returned.
#[derive(Clone, Copy, Debug, PartialEq, Eq, Error)]
pub enum MakeFault {
    /// There are more than `MAX_TASKS` tasks.
    #[error("too many tasks")]
    TooManyTasks,
    /// There are more than `MAX_MUTEXES` mutexes.
    #[error("too many mutexes")]
    TooManyMutexes,
    /// Out of memory.
    #[error("memory")]
    Memory,
}

impl From<AllocError> for MakeFault {
    ghost from_gives = { λ _ fault. fault ≡ Memory };

    fn from(_error: AllocError) -> MakeFault {
        MakeFault::Memory
    }
}
