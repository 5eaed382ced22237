//! What readers read.

ghost use Rattle.std.specs.Prelude.{◌≡◌};
ghost use Rattle.pim_shared.specs.Versions.{first_version, next_version};

use left_right::Absorb;
use pim_base::{Entry, Reply, Step};
use pim_manager::Manager;
use std::alloc::AllocError;

/// The manager, the number of entries so far, and the last of them.
#[derive(Drop)]
pub struct Version {
    pub manager: Manager,
    pub steps: u64,
    pub last: Option<Entry>,
}

impl Version {
    /// Returns the version before any entry.
    pub(crate) fn first(manager: Manager) -> Version
        ensures { result ≡ first_version manager }
    {
        Version {
            manager,
            steps: 0,
            last: None,
        }
    }

    /// Makes a step.
    fn step(&mut self, step: &Step)
        ensures { self.new ≡ next_version self.old step.now }
    {
        let reply = self.manager.step(*step).reply;
        self.steps = self.steps.saturating_add(1);
        self.last = Some(entry(*step, reply));
    }
}

/// Returns the entry of a step and its reply.
///
/// It is a function since the generated proof copies a step only as an argument.
pub(crate) fn entry(step: Step, reply: Reply) -> Entry
    ensures { result ≡ record { step = step; reply = reply } }
{
    Entry { step, reply }
}

/// Each copy absorbs the whole step by itself: from equal states the same step gets equal replies and leaves equal
/// states.
impl Absorb<Step> for Version {
    ghost use Rattle.pim_shared.specs.Versions.{next_version};

    type State = Version;

    ghost state = { λ version. version };

    ghost applied = { next_version };

    ghost never_fails = { Unit {0} };

    fn absorb_first(&mut self, step: &Step, _other: &Version) -> Result<(), AllocError> {
        self.step(step);
        Ok(())
    }

    fn absorb_second(&mut self, step: Step, _other: &Version) -> Result<(), Step> {
        self.step(&step);
        Ok(())
    }
}
