//! Why bytes are no text of facts.

ghost use Rattle.std.specs.Prelude.{◌≡◌};
ghost use Rattle.pim_world.specs.declared.fault.FactsFault.TheVariants.{Memory};

use crate::refusal::Refusal;
use pim_fact_lines::Malformed;
use std::alloc::AllocError;
use std::fmt;

/// Why a line is invalid.
#[derive(Clone, Copy)]
pub enum Why {
    /// It is the first line, and isn't `facts 1`.
    Header,
    /// It has the form of no line.
    Malformed(Malformed),
    /// It may not follow the lines before it.
    Refused(Refusal),
}

impl fmt::Display for Why {
    fn fmt<W: fmt::Write>(&self, f: &mut fmt::Formatter<W>) -> fmt::Result {
        match self {
            Why::Header => f.write_str("the first line is: facts 1"),
            Why::Malformed(malformed) => malformed.fmt(f),
            Why::Refused(refusal) => f.write_str(refusal.reason()),
        }
    }
}

/// Why bytes are no text of facts.
#[derive(Clone, Copy)]
pub enum FactsFault {
    /// This line, counted from 1, is the first invalid one.
    Line(usize, Why),
    /// Out of memory.
    Memory,
}

impl fmt::Display for FactsFault {
    fn fmt<W: fmt::Write>(&self, f: &mut fmt::Formatter<W>) -> fmt::Result {
        match self {
            FactsFault::Line(number, why) => write!(f, "line {number}: {why}"),
            FactsFault::Memory => f.write_str("memory"),
        }
    }
}

impl From<AllocError> for FactsFault {
    ghost from_gives = { λ _ fault. fault ≡ Memory };

    fn from(_error: AllocError) -> FactsFault {
        FactsFault::Memory
    }
}
