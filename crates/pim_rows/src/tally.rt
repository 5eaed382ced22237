//! For how long what held of a waiting thread.

ghost use Rattle.std.specs.Prelude.{◌≡◌, ◌-◌, IfOk};
ghost use Rattle.pim_rows.specs.Tallies.{no_tally, with_time, IsWithin};

use crate::table::Times;
use pim_world::Standing;
use std::alloc::{AllocError, Global};

/// For how long what held of a waiting thread.
#[derive(Drop)]
pub struct Tally {
    /// For how long it had a runner with a lower level.
    pub lower: u64,
    /// For how long it was inverted.
    pub inverted: Times,
    /// For how long its runner was blocked.
    pub stalled: Times,
    /// For how long another thread ran in place of its runner.
    pub meanwhile: Times,
}

impl Tally {
    /// Returns that nothing held yet.
    pub fn new(alloc: Global) -> Tally
        ensures { result ≡ no_tally }
    {
        Tally {
            lower: 0,
            inverted: Times::new(alloc),
            stalled: Times::new(alloc),
            meanwhile: Times::new(alloc),
        }
    }

    /// Adds a time for which this held.
    ///
    /// # Errors
    ///
    /// Returns `AllocError` if out of memory.
    pub fn with_time(&mut self, standing: &Standing, time: u64) -> Result<(), AllocError>
        requires { IsWithin (u64.MAX - time) self.old }
        ensures { IfOk result (λ _. self.new ≡ with_time standing.now time self.old) }
    {
        self.inverted.add(standing.inverted, time)?;
        self.stalled.add(standing.stalled, time)?;
        self.meanwhile.add(standing.meanwhile, time)?;
        if standing.lower {
            self.lower += time;
        }
        Ok(())
    }
}
