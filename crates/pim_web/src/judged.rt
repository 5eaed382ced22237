//! The judge's answer to its host.

ghost use Rattle.std.specs.Prelude.{◌≡◌};
ghost use Rattle.pim_web.specs.Judged.{verdict_on};

use crate::numbers::{ACCEPTED, REJECTED};
use pim_base::Verdict;

/// The verdict on a text, or the fault that prevented one.
#[repr(C)]
#[derive(Clone, Copy)]
pub struct CJudged {
    /// ACCEPTED, REJECTED, INVALID or NO_MEMORY.
    pub kind: u32,
    /// The number of accepted steps, the rejected step, the first invalid line, or 0.
    pub number: u32,
    /// The length of the report in bytes, or 0 if there is none.
    pub length: usize,
}

impl CJudged {
    /// Returns the verdict on a text whose report has this length.
    pub fn of(verdict: Verdict, length: usize) -> CJudged
        ensures { result ≡ verdict_on verdict length }
    {
        match verdict {
            Verdict::Accepted(number) => CJudged {
                kind: ACCEPTED,
                number,
                length,
            },
            Verdict::Rejected(number) => CJudged {
                kind: REJECTED,
                number,
                length,
            },
        }
    }
}
