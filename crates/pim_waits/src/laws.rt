//! Laws over the definitions: each is the contract of a function that does nothing, so that it is
//! proved.

ghost use Rattle.pim_waits.specs.Laws.{RunnerLaw, BlameLaw, BlameExistsLaw, PassingLaw};
ghost use Rattle.pim_waits.specs.Laws.{IdleOwnerLaw};

/// The thread that has to run is another one than the waiting thread, and awaits no mutex that is
/// owned.
pub fn runner_law()
    ensures { RunnerLaw }
{}

/// The blamed mutex is NONE, or PROTECT with a ceiling below what the waiting thread gets.
///
/// Its owner gets less than the thread that awaits it. There is such a mutex whenever the runner
/// gets less than the waiting thread.
pub fn blame_law()
    ensures blamed { BlameLaw }
    ensures exists { BlameExistsLaw }
{}

/// While each mutex on the way of a thread passes on what the thread gets, the thread isn't
/// inverted.
pub fn passing_law()
    ensures { PassingLaw }
{}

/// A wait for a NONE mutex, whose owner is idle and owns nothing else, is inverted if and only if
/// the owner's level is below what the waiting thread gets.
pub fn idle_owner_law()
    ensures { IdleOwnerLaw }
{}
