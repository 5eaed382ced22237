//! Why bytes are not read as a text.
ghost use Rattle.std.specs.Prelude.{◌≡◌};
ghost use Rattle.pim_text.specs.declared.fault.TextFault.TheVariants.{Memory};

use std::alloc::AllocError;
use thiserror::Error;

/// Why bytes are not read as a text.
#[derive(Clone, Copy, Debug, PartialEq, Eq, Error)]
pub enum TextFault {
    /// This line, counted from 1, is the first invalid one.
    #[error("line {0}")]
    Line(u32),
    /// Out of memory.
    #[error("memory")]
    Memory,
}

impl From<AllocError> for TextFault {
    ghost from_gives = { λ _ fault. fault ≡ Memory };

    fn from(_error: AllocError) -> TextFault {
        TextFault::Memory
    }
}
