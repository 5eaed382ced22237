//! Why a call fails.

ghost use Rattle.std.specs.Prelude.{◌≡◌};
ghost use Rattle.pim_judge.specs.Faults.{fault_of};
ghost use Rattle.pim_judge.specs.declared.fault.Fault.TheVariants.{Memory, Shared};

use pim_manager::SharedFault;
use pim_text::TextFault;
use std::alloc::{AllocError, AllocFailed};
use thiserror::Error;

/// Why there is no output, or only a prefix of it.
#[derive(Clone, Copy, Debug, PartialEq, Eq, Error)]
pub enum Fault {
    /// This line, counted from 1, is the first invalid one. Nothing was written.
    #[error("line {0}")]
    Line(u32),
    /// A read failed. Nothing was written.
    #[error("read")]
    Read,
    /// A write failed, or took no byte of a piece that wasn't empty. A prefix of the output was written.
    #[error("write")]
    Write,
    /// Out of memory. A prefix of the output was written, perhaps an empty one.
    #[error("memory")]
    Memory,
    /// A script couldn't be run, or the log isn't the log of a run of the script. Nothing was written.
    #[error("shared {0}")]
    Shared(SharedFault),
    /// A script has more tasks than the most workers that are allowed. Nothing was written.
    #[error("too many workers")]
    TooManyWorkers,
}

impl From<SharedFault> for Fault {
    ghost from_gives = { λ shared fault. fault ≡ Shared shared };

    fn from(fault: SharedFault) -> Fault {
        Fault::Shared(fault)
    }
}

impl From<TextFault> for Fault {
    ghost from_gives = { λ of_text fault. fault ≡ fault_of of_text };

    fn from(fault: TextFault) -> Fault {
        match fault {
            TextFault::Line(number) => Fault::Line(number),
            TextFault::Memory => Fault::Memory,
        }
    }
}

impl From<AllocError> for Fault {
    ghost from_gives = { λ _ fault. fault ≡ Memory };

    fn from(_error: AllocError) -> Fault {
        Fault::Memory
    }
}

impl<T: Drop> From<AllocFailed<T>> for Fault {
    ghost from_gives = { λ _ fault. fault ≡ Memory };

    fn from(_error: AllocFailed<T>) -> Fault {
        Fault::Memory
    }
}
