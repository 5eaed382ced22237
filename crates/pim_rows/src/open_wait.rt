//! A wait that lasts.

ghost use Rattle.std.specs.Prelude.{◌≡◌, is_some, IfOk};
ghost use Rattle.pim_rows.specs.OpenWaits.{IsUntil, Begins, Renews, EndsWith, HasTimes};

use crate::tally::Tally;
use pim_world::Standing;
use std::alloc::{AllocError, Global};

/// A wait that lasts, with what holds of the thread and for how long what held.
///
/// The time for which a standing holds is added when another one takes its place, and when the wait
/// ends. So a line after which the same holds costs a comparison, or nothing: it may go without a
/// call.
#[derive(Drop)]
pub struct OpenWait {
    since: u64,
    standing: Standing,
    tally: Tally,
}

impl OpenWait {
    /// Returns a wait that begins now, with what holds of the thread.
    pub fn new(alloc: Global, standing: Standing, clock: u64) -> OpenWait
        ensures { Begins result clock standing }
    {
        OpenWait {
            since: clock,
            standing,
            tally: Tally::new(alloc),
        }
    }

    /// Goes on by a line after which this holds of the thread.
    ///
    /// # Errors
    ///
    /// Returns `AllocError` if out of memory. The wait is of no use then.
    pub fn refresh(&mut self, clock: u64, standing: Standing) -> Result<(), AllocError>
        requires { IsUntil clock self.old }
        ensures { IfOk result (λ _. Renews self.old self.new clock standing) }
    {
        if self.standing.is(&standing) {
            return Ok(());
        }
        self.tally.with_time(&self.standing, clock - self.since)?;
        self.since = clock;
        self.standing = standing;
        Ok(())
    }

    /// Returns whether the thread is inverted.
    pub fn is_inverted(&self) -> bool
        ensures { result ≡ is_some self.now.standing.inverted }
    {
        self.standing.inverted.is_some()
    }

    /// Returns for how long what held, until now.
    ///
    /// # Errors
    ///
    /// Returns `AllocError` if out of memory.
    pub fn close(self, clock: u64) -> Result<Tally, AllocError>
        requires { IsUntil clock self }
        ensures ended { IfOk result (EndsWith self clock) }
        ensures lasting { IfOk result (HasTimes self clock) }
    {
        let mut tally = self.tally;
        tally.with_time(&self.standing, clock - self.since)?;
        Ok(tally)
    }
}
