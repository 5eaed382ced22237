//! The tasks whose stored priority changed.

ghost use Rattle.std.specs.Prelude.{◌≡◌, []};
ghost use Rattle.std.specs.Iterator.{YieldsFirst, item_count};
ghost use Rattle.pim_sets.specs.Numbers.{members};

use crate::notes::Notes;
use crate::number_set::Numbers;
use pim_base::TaskNo;
use std::marker::Model;

/// The noted tasks, in ascending order: those whose stored priority isn't the one that they had.
///
/// Its value in contracts is the list of those that are left.
#[derive(Drop)]
pub struct Changed<'a> {
    noted: Numbers<'a>,
}

impl<'a> Model for Changed<'a> {
    ghost use Rattle.std.specs.Prelude.{List, ℕ};

    ghost Value = { List ℕ };

    ghost view = { λ c. c.noted };
}

impl<'a> Changed<'a> {
    /// Returns the noted tasks.
    pub fn new(notes: &'a Notes) -> Changed<'a>
        ensures { result ≡ members notes.now.tasks }
    {
        Changed {
            noted: notes.tasks(),
        }
    }

    /// Returns no tasks.
    pub fn none() -> Changed<'a>
        ensures { result ≡ [] }
    {
        Changed {
            noted: Numbers::none(),
        }
    }
}

impl<'a> Iterator for Changed<'a> {
    type Item = TaskNo;

    ghost next_gives = { YieldsFirst (λ rest. rest) };

    ghost remaining = { item_count (λ rest. rest) };

    fn next(&mut self) -> Option<TaskNo> {
        let number = self.noted.next()?;
        Some(TaskNo(number))
    }
}
