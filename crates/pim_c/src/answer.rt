//! The answer to a step.

ghost use Rattle.std.specs.Prelude.{◌≡◌};
ghost use Rattle.pim_c.specs.Answers.{no_answer};
ghost use Rattle.pim_c.specs.declared.numbers.TheConstants.{REFUSED};
ghost use Rattle.pim_c.specs.Numbers.{reply_number, reply_refusal, reply_detail};

use crate::numbers::{
    FREED, GRANTED, HANDED, KEPT, NO_MANAGER, QUEUED, REFUSED, RELEASED, SET, WITHDRAWN,
    number_of_refusal,
};
use pim_base::Reply;

/// The answer to a step, in C.
#[repr(C)]
#[derive(Clone, Copy)]
pub struct CAnswer {
    /// The number of the reply, or `NO_MANAGER`.
    pub kind: u8,
    /// The number of the refusal, or 0.
    pub refusal: u8,
    /// The task that the mutex was handed to, or how many mutexes were released, or 0.
    pub number: u16,
    /// How many visits the step made: each computes one task's priority.
    pub visits: u16,
    /// How many tasks have another effective priority then.
    pub changed: u16,
}

impl CAnswer {
    /// Returns the answer of a handle without a manager.
    pub fn none() -> CAnswer
        ensures { result ≡ no_answer }
    {
        CAnswer {
            kind: NO_MANAGER,
            refusal: 0,
            number: 0,
            visits: 0,
            changed: 0,
        }
    }

    /// Returns the answer of a call that is refused with this number.
    pub fn refused(refusal: u8) -> CAnswer
        ensures { result ≡ record { kind = REFUSED; refusal = refusal; number = 0; visits = 0; changed = 0 } }
    {
        CAnswer {
            kind: REFUSED,
            refusal,
            number: 0,
            visits: 0,
            changed: 0,
        }
    }

    /// Returns this reply to a step that made this number of visits and changed no task.
    pub fn of(reply: Reply, visits: u16) -> CAnswer
        ensures { result ≡ record { kind = reply_number reply; refusal = reply_refusal reply; number = reply_detail reply; visits = visits; changed = 0 } }
    {
        let (kind, refusal, number) = match reply {
            Reply::Granted => (GRANTED, 0, 0),
            Reply::Queued => (QUEUED, 0, 0),
            Reply::Freed => (FREED, 0, 0),
            Reply::Handed(task) => (HANDED, 0, task.get()),
            Reply::Released(count) => (RELEASED, 0, count),
            Reply::Withdrawn => (WITHDRAWN, 0, 0),
            Reply::Set => (SET, 0, 0),
            Reply::Refused(refusal) => (REFUSED, number_of_refusal(refusal), 0),
            Reply::Kept => (KEPT, 0, 0),
        };
        CAnswer {
            kind,
            refusal,
            number,
            visits,
            changed: 0,
        }
    }
}
