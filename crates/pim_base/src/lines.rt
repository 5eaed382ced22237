//! The lines of a text, and the verdict of a report.

ghost use Rattle.std.specs.Prelude.{◌≡◌};
ghost use Rattle.pim_base.specs.Spelling.{since};

use crate::numbers::{MutexNo, Prio, TaskNo};
use crate::steps::{Protocol, Reply, Step};

/// What a line of a text says, below the first line, which names the version.
#[derive(Clone, Copy, Debug, PartialEq, Eq)]
pub enum Line {
    /// Declares a task with its base priority.
    Task { number: TaskNo, base: Prio },
    /// Declares a mutex with its protocol.
    Mutex { number: MutexNo, protocol: Protocol },
    /// A step, with the recorded reply if there is one.
    Step(StepLine),
}

impl Line {
    /// Returns the first version of the text that has this line.
    pub fn since(&self) -> u8
        ensures { result ≡ since self.now }
    {
        match self {
            Line::Task { .. } => 1,
            Line::Mutex { protocol, .. } => protocol.since(),
            Line::Step(line) => {
                let recorded = line.recorded.map_or(1, |reply| reply.since());
                line.step.op.since().max(recorded)
            }
        }
    }
}

/// A step of a text, with the reply that was recorded for it, if there is one.
#[derive(Clone, Copy, Debug, PartialEq, Eq)]
pub struct StepLine {
    pub step: Step,
    pub recorded: Option<Reply>,
}

/// The last line of a report.
#[derive(Clone, Copy, Debug, PartialEq, Eq)]
pub enum Verdict {
    /// No recorded reply differs from the model's; the number of step lines, at most 65,536.
    Accepted(u32),
    /// The number of the first step, counted from 1, whose recorded reply differs from the model's.
    Rejected(u32),
}
