//! The mutexes that a step releases.

ghost use Rattle.std.specs.Prelude.{◌≡◌, ◌<◌, ℕ, [], Some};
ghost use Rattle.pim_base.specs.declared.steps.Reply.{Reply};
ghost use Rattle.pim_sets.specs.Numbers.{members};
ghost use Rattle.pim_manager.specs.Released.{released_at_once, released_then, unlocked};

use crate::manager::Manager;
use pim_base::{MutexNo, Op, Reply, Step};
use pim_sets::{NumberSet, Numbers};
use std::marker::Model;

/// The mutexes that a step released: of an unlock only one that was handed over.
///
/// Its value in contracts is their list, in ascending order.
#[derive(Drop)]
pub(crate) struct Released {
    // Else there are none, whatever is in the set.
    is_any: bool,
    set: NumberSet,
}

impl Model for Released {
    ghost use Rattle.std.specs.Prelude.{List, [], ℕ, if◌then◌else◌};
    ghost use Rattle.pim_sets.specs.Numbers.{members};

    ghost Value = { List ℕ };

    ghost view = { λ r. if r.is_any then members r.set.words else [] };
}

impl Released {
    /// Returns no mutexes.
    pub(crate) fn new() -> Released
        ensures { result ≡ [] }
    {
        Released {
            is_any: false,
            set: NumberSet::new(),
        }
    }

    /// Forgets all mutexes.
    pub(crate) fn clear(&mut self)
        ensures { self.new ≡ [] }
    {
        self.is_any = false;
    }

    /// Begins with the mutexes that the step is going to release if it releases all of its actor's.
    #[inline(always)]
    pub(crate) fn restart(&mut self, manager: &Manager, step: &Step)
        ensures { self.new ≡ released_at_once manager.now step.now.actor step.now.op }
    {
        match step.op {
            Op::ReleaseAll => self.put(manager.releasable(step.actor)),
            _ => self.clear(),
        }
    }

    /// Has these mutexes in place of all others.
    fn put(&mut self, set: NumberSet)
        ensures { self.new ≡ members set.words }
    {
        self.set = set;
        self.is_any = true;
    }

    /// Forgets all but the unlocked mutex if it was handed over.
    #[inline(always)]
    pub(crate) fn note(&mut self, unlocked: Option<MutexNo>, reply: &Reply)
        requires { (m t : ℕ) → unlocked ≡ Some m → reply.now ≡ Reply.Handed t → m < 320 }
        ensures { self.new ≡ released_then self.old unlocked reply.now }
    {
        if let Some(mutex) = unlocked {
            if let Reply::Handed(_) = reply {
                let mut set = NumberSet::new();
                set.insert(mutex.get());
                self.put(set);
            }
        }
    }

    /// Returns the mutexes.
    pub(crate) fn iter(&self) -> Numbers<'_>
        ensures { result ≡ self.now }
    {
        if self.is_any {
            self.set.iter()
        } else {
            Numbers::none()
        }
    }
}

/// Returns the mutex that the step unlocks, `None` if it is no unlock.
#[inline(always)]
pub(crate) fn unlocked(step: &Step) -> Option<MutexNo>
    ensures { result ≡ unlocked step.now.op }
{
    match step.op {
        Op::Unlock(mutex) => Some(mutex),
        _ => None,
    }
}
