//! For how long a thread has been off a CPU.

ghost use Rattle.std.specs.Prelude.{◌≡◌};
ghost use Rattle.pim_rows.specs.OffTimes.{no_off_time, off_until, off_from, off_ended};

/// For how long a thread has been off a CPU.
#[derive(Clone, Copy)]
pub(crate) struct OffTime {
    /// For how long it was off in all, but for the time since it was last put off if it is off, in
    /// nanoseconds.
    before: u64,
    /// The clock when it was last put off, in nanoseconds.
    since: u64,
}

impl OffTime {
    /// Returns that a thread was never off.
    pub(crate) fn none() -> OffTime
        ensures { result ≡ no_off_time }
    {
        OffTime {
            before: 0,
            since: 0,
        }
    }

    /// Returns for how long a thread has been off, which is off still.
    pub(crate) fn until(self, clock: u64) -> u64
        ensures { result ≡ off_until self clock }
    {
        self.before.saturating_add(clock.saturating_sub(self.since))
    }

    /// Returns what is kept of a thread that is put off a CPU.
    pub(crate) fn from(self, clock: u64) -> OffTime
        ensures { result ≡ off_from self clock }
    {
        OffTime {
            before: self.before,
            since: clock,
        }
    }

    /// Returns what is kept of a thread that was off, and isn't any more.
    pub(crate) fn ended(self, clock: u64) -> OffTime
        ensures { result ≡ off_ended self clock }
    {
        OffTime {
            before: self.until(clock),
            since: self.since,
        }
    }

    /// Returns for how long a thread has been off, which isn't off now.
    pub(crate) fn before(self) -> u64
        ensures { result ≡ self.before }
    {
        self.before
    }
}
