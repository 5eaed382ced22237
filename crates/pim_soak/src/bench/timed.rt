//! What was done in how long.

use std::io;
use std::sync::Mutex;
use std::time::Duration;

/// How often something was done, in how long, and how long the longest one took.
#[derive(Clone, Copy, Debug, PartialEq, Eq)]
pub struct Timed {
    pub count: u64,
    pub time: Duration,
    pub longest: Duration,
}

impl Timed {
    /// Returns how often it was done in a second, and the largest u64 where that is more.
    pub fn rate(self) -> u64 {
        let whole = u128::from(self.count) * 1_000_000_000;
        u64::try_from(whole / self.time.as_nanos().max(1)).unwrap_or(u64::MAX)
    }
}

/// Returns what all threads did together, in the time of the slowest.
///
/// # Errors
///
/// Where one of them has no time.
pub fn all_of(times: Vec<Mutex<Option<Timed>>>) -> io::Result<Timed> {
    let mut all = Timed {
        count: 0,
        time: Duration::ZERO,
        longest: Duration::ZERO,
    };
    for time in times {
        let Some(one) = time.into_inner() else {
            return Err(io::Error::from(io::ErrorKind::OutOfMemory));
        };
        all.count = all.count.saturating_add(one.count);
        all.time = all.time.max(one.time);
        all.longest = all.longest.max(one.longest);
    }
    Ok(all)
}
