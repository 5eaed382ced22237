//! The reply to a step, and its work.

use pim_base::Reply;

/// The reply to a step, and its work.
#[derive(Clone, Copy, Debug, PartialEq, Eq)]
pub struct Done {
    /// The reply to the task that made the step.
    pub reply: Reply,
    /// How many visits the step made: each computes one task's priority.
    pub visits: u32,
}
