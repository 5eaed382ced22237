//! A wait-free reader of the manager.

ghost use Rattle.std.specs.Prelude.{◌≡◌, [], IsTrue, IfOk, IfErr, MatchOption};
ghost use mathlib.Core.List.{IsPrefix};
ghost use Rattle.left_right.specs.Sides.{view as known};
ghost use Rattle.pim_shared.specs.Lookers.{history_of, seen_of, Shows, HasLooked, HasFoundLast, EndsWithNew};
ghost use Rattle.pim_shared.specs.Rules.{KnowsStart};

use crate::SharedFault;
use crate::rule::{Enters, VersionReader};
use crate::version::Version;
use core::mem::replace_with;
use pim_base::{Entry, Prio, Reason, TaskNo};
use std::marker::Model;

/// What a read returns of a task.
#[derive(Clone, Copy, Debug, PartialEq, Eq)]
pub struct Seen {
    /// The number of entries in the log.
    pub steps: u64,
    /// The effective priority of the task after these.
    pub prio: Prio,
    /// Why the task had it.
    pub reason: Reason,
}

/// A wait-free reader of the manager: it takes no lock.
///
/// Its value in contracts is the start state and the list of entries that it has seen, which is empty at first. Each read
/// sees a published list that begins with the one seen before, so no read goes back.
#[derive(Drop)]
pub struct Looker {
    reader: VersionReader,
    steps: u64,
}

impl Model for Looker {
    ghost use Rattle.left_right.specs.Sides.{view as known};
    ghost use Rattle.pim_shared.specs.Logs.{History};
    ghost use Rattle.pim_shared.specs.Lookers.{history_of, IsCounted};

    ghost Value = { History };

    ghost view = { λ looker. history_of (known looker.reader.place) };

    ghost invariant = { λ looker. IsCounted (known looker.reader.place) looker.steps };
}

impl Looker {
    /// Returns a reader that knows the start and has seen no entry.
    pub(crate) fn new(reader: VersionReader) -> Looker
        requires { KnowsStart (known reader.place) × ((known reader.place).seen ≡ []) }
        ensures { result ≡ history_of (known reader.place) }
    {
        Looker { reader, steps: 0 }
    }

    /// Returns the task's effective priority, its reason and the number of entries in the last published version. None for
    /// an unknown task.
    ///
    /// It never waits, takes no lock and allocates nothing. It costs a few atomic operations and a `Manager::reason`.
    ///
    /// # Errors
    ///
    /// `Closed` after `finish`. A fault of a call doesn't stop reads.
    pub fn look(&mut self, task: TaskNo) -> Result<Option<Seen>, SharedFault>
        ensures start { self.new.start ≡ self.old.start }
        ensures grown { IsPrefix self.old.entries self.new.entries }
        ensures seen { IfOk result (Shows self.new task) }
        ensures closed { IfErr result (λ fault. (fault ≡ SharedFault.Closed) × (self.new ≡ self.old)) }
    {
        match replace_with(&mut self.reader, task, look_once) {
            Some((steps, seen)) => {
                self.steps = steps;
                Ok(seen)
            }
            None => Err(SharedFault::Closed),
        }
    }

    /// Reads the last published version. Returns whether it has more entries than were seen and ends with this one.
    pub(crate) fn finds(&mut self, entry: Entry) -> bool
        ensures start { self.new.start ≡ self.old.start }
        ensures grown { IsPrefix self.old.entries self.new.entries }
        ensures found { IsTrue result → EndsWithNew self.old self.new entry }
    {
        let before = self.steps;
        let Some((steps, last)) = replace_with(&mut self.reader, (), last_once) else {
            return false;
        };
        self.steps = steps;
        if steps <= before {
            return false;
        }
        last == Some(entry)
    }
}

/// Returns the number of entries of the published version and what it says of the task. None after the publisher ended.
fn look_once(reader: VersionReader, task: TaskNo) -> (VersionReader, Option<(u64, Option<Seen>)>)
    requires { KnowsStart (known reader.place) }
    ensures { MatchOption result.1 (known result.0.place ≡ known reader.place) (HasLooked task (known reader.place) (known result.0.place)) }
{
    match reader.enter_as::<Enters>() {
        Ok(reading) => {
            let version = reading.get();
            let found = (version.steps, seen_in(version, task));
            (reading.leave(), Some(found))
        }
        Err(reader) => (reader, None),
    }
}

/// Returns the number of entries of the published version and the last of them. None after the publisher ended.
fn last_once(reader: VersionReader, _nothing: ()) -> (VersionReader, Option<(u64, Option<Entry>)>)
    requires { KnowsStart (known reader.place) }
    ensures { MatchOption result.1 (known result.0.place ≡ known reader.place) (HasFoundLast (known reader.place) (known result.0.place)) }
{
    match reader.enter_as::<Enters>() {
        Ok(reading) => {
            let version = reading.get();
            let found = (version.steps, version.last);
            (reading.leave(), Some(found))
        }
        Err(reader) => (reader, None),
    }
}

fn seen_in(version: &Version, task: TaskNo) -> Option<Seen>
    ensures { result ≡ seen_of version.now.manager version.now.steps task }
{
    let prio = version.manager.effective(task)?;
    let reason = version.manager.reason(task)?;
    Some(Seen {
        steps: version.steps,
        prio,
        reason,
    })
}
