//! Why a call of a manager that threads share fails.

ghost use Rattle.std.specs.Prelude.{◌≡◌};
ghost use Rattle.pim_manager.specs.declared.shared_fault.SharedFault.TheVariants.{Memory};

use std::alloc::AllocError;
use thiserror::Error;

/// Why a call of a manager that threads share was refused, or why the log of such calls isn't a run of the scripts.
///
/// The manager is behind a lock, and each call adds an entry to its log. `pim_shared` has both, and its calls return
/// this fault.
#[derive(Clone, Copy, Debug, PartialEq, Eq, Error)]
pub enum SharedFault {
    /// The log holds as many entries as it has room for. Manager and log are unchanged, and closed from then on.
    #[error("full")]
    Full,
    /// Out of memory, or a thread couldn't be started. Nothing is changed; a call closes what it is made on.
    #[error("memory")]
    Memory,
    /// An earlier call returned `Full` or `Memory`. For a read: `finish` took the manager out. Nothing is changed.
    #[error("closed")]
    Closed,
    /// The log begins elsewhere, or isn't an interleaving of the scripts.
    #[error("torn")]
    Torn,
    /// There is no place for that many readers, or the reader is one of another manager.
    #[error("no place")]
    NoPlace,
}

impl From<AllocError> for SharedFault {
    ghost from_gives = { λ _ fault. fault ≡ Memory };

    fn from(_error: AllocError) -> SharedFault {
        SharedFault::Memory
    }
}
