//! The parts of a text, as numbers for the host.

ghost use Rattle.std.specs.Prelude.{◌≡◌};
ghost use Rattle.pim_web.specs.Parts.{c_base, c_step};

use crate::numbers::{BASE, CANCEL, CEILING, LOCK, RELEASE, TRY, UNLOCK};
use pim_base::{Op, Prio, Step, StepLine};

/// The step of a line, without the recorded reply.
#[repr(C)]
#[derive(Clone, Copy)]
pub struct CStep {
    /// The task that makes the step.
    pub actor: u16,
    /// The number of the operation.
    pub op: u16,
    /// The mutex or the task that it names, or 0.
    pub first: u16,
    /// The priority or the ceiling that it names, or 0.
    pub second: u16,
}

/// Returns the base priority as a number.
pub fn base_of(base: Prio) -> u16
    ensures { result ≡ c_base base }
{
    base.get()
}

impl CStep {
    /// Returns the step of this line.
    pub fn of(line: StepLine) -> CStep
        ensures { result ≡ c_step line }
    {
        let Step { actor, op } = line.step;
        let (op, first, second) = match op {
            Op::Lock(mutex) => (LOCK, mutex.get(), 0),
            Op::Try(mutex) => (TRY, mutex.get(), 0),
            Op::Unlock(mutex) => (UNLOCK, mutex.get(), 0),
            Op::ReleaseAll => (RELEASE, 0, 0),
            Op::Cancel(target) => (CANCEL, target.get(), 0),
            Op::SetBase(target, level) => (BASE, target.get(), level),
            Op::SetCeiling(mutex, level) => (CEILING, mutex.get(), level),
        };
        CStep {
            actor: actor.get(),
            op,
            first,
            second,
        }
    }
}
