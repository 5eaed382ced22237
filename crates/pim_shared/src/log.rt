//! The steps that a manager made since its start, with their replies.

ghost use Rattle.std.specs.Prelude.{◌≡◌};

use pim_base::Entry;
use pim_manager::Manager;
use std::marker::Model;

/// The manager at the start, and the entries since then, in the order in which they were made.
#[derive(Drop)]
pub struct Log {
    start: Manager,
    entries: Vec<Entry>,
}

impl Model for Log {
    ghost use Rattle.pim_shared.specs.Logs.{History};

    ghost Value = { History };

    ghost view = { λ log. record { start = log.start; entries = log.entries.items } };
}

impl Log {
    /// Returns the log of these entries.
    pub(crate) fn new(start: Manager, entries: Vec<Entry>) -> Log
        ensures start { result.start ≡ start }
        ensures entries { result.entries ≡ entries.items }
    {
        Log { start, entries }
    }

    /// Returns the manager as it was before the first entry.
    pub fn start(&self) -> &Manager
        ensures { result.now ≡ self.now.start }
    {
        &self.start
    }

    /// Returns the entries: each step that was made, with its reply, in order.
    pub fn entries(&self) -> &[Entry]
        ensures { result.now ≡ self.now.entries }
    {
        self.entries.as_slice()
    }
}
