//! Why a text of facts has no rows.

ghost use Rattle.std.specs.Prelude.{◌≡◌};
ghost use Rattle.pim_findings.specs.declared.fault.Fault.TheVariants.{Memory};
ghost use Rattle.pim_findings.specs.Faults.{fault_of};

use pim_world::{FactsFault, Why};
use std::alloc::AllocError;
use std::fmt;

/// Why there are no rows, or only a prefix of them.
#[derive(Clone, Copy)]
pub enum Fault {
    /// This line, counted from 1, is the first invalid one. Nothing was written.
    Line(usize, Why),
    /// A read failed. Nothing was written.
    Read,
    /// A write failed, or took no byte of a piece that wasn't empty. A prefix of the rows was
    /// written.
    Write,
    /// Out of memory. Nothing was written.
    Memory,
}

impl fmt::Display for Fault {
    fn fmt<W: fmt::Write>(&self, f: &mut fmt::Formatter<W>) -> fmt::Result {
        match self {
            Fault::Line(number, why) => write!(f, "{}", FactsFault::Line(*number, *why)),
            Fault::Read => f.write_str("read"),
            Fault::Write => f.write_str("write"),
            Fault::Memory => f.write_str("memory"),
        }
    }
}

impl From<FactsFault> for Fault {
    ghost from_gives = { λ of_text fault. fault ≡ fault_of of_text };

    fn from(fault: FactsFault) -> Fault {
        match fault {
            FactsFault::Line(number, why) => Fault::Line(number, why),
            FactsFault::Memory => Fault::Memory,
        }
    }
}

impl From<AllocError> for Fault {
    ghost from_gives = { λ _ fault. fault ≡ Memory };

    fn from(_error: AllocError) -> Fault {
        Fault::Memory
    }
}
