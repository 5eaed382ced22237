//! Laws over the definitions: each is the contract of a function that does nothing, so that it is
//! proved.

ghost use Rattle.pim_rows.specs.Laws.{SumsLaw, OrderLaw, BoundsLaw};
ghost use Rattle.pim_rows.specs.Inversions.{InversionLaw};
ghost use Rattle.pim_rows.specs.DeadlockRows.{DeadlockLaw};
ghost use Rattle.pim_rows.specs.EachWait.{EachWaitLaw};
ghost use Rattle.pim_rows.specs.SectionOwners.{SectionOwnerLaw};
ghost use Rattle.pim_rows.specs.SectionTimes.{UsedLaw, WithoutOffLaw};

/// The times of a wait are sums of the stretches in which what they count held.
///
/// So the rows of a table add up to the time in the row of the wait.
pub fn sums_law()
    ensures { SumsLaw }
{}

/// The clock never goes back.
pub fn order_law()
    ensures { OrderLaw }
{}

/// A wait is inverted for no longer than its runner has a lower level, and its runner isn't blocked
/// then.
///
/// Another thread runs in place of the runner for no longer than the wait is inverted.
pub fn bounds_law()
    ensures { BoundsLaw }
{}

/// After each line: which waits aren't inverted, which mutex is blamed, and which threads are a
/// runner and a meanwhile.
pub fn inversion_law()
    ensures { InversionLaw }
{}

/// No section used more time than the longest one took. Without an `off` these are equal.
pub fn section_times_law()
    ensures used { UsedLaw }
    ensures without_off { WithoutOffLaw }
{}

/// Each row of a deadlock is a cycle of waits, from the thread with the lowest number on. Each
/// thread on a cycle is in exactly one of them.
pub fn deadlock_law()
    ensures { DeadlockLaw }
{}

/// A section is of the thread that owns the mutex after each line of it.
pub fn section_owner_law()
    ensures { SectionOwnerLaw }
{}

/// Each wait of a text has one row `wait`, with its line, its thread and its mutex. No other row is
/// one.
pub fn each_wait_law()
    ensures { EachWaitLaw }
{}
