//! The mutexes that a task owns.

ghost use Rattle.std.specs.Iterator.{YieldsFirst, item_count};
ghost use Rattle.std.specs.Prelude.{◌≡◌};
ghost use Rattle.pim_sets.specs.Numbers.{members};

use crate::number_set::{NumberSet, Numbers};
use pim_base::MutexNo;
use std::marker::Model;

/// The mutexes that a task owns, in ascending order.
///
/// Its value in contracts is the list of those that are left.
#[derive(Drop)]
pub struct Owned<'a> {
    left: Numbers<'a>,
}

impl<'a> Model for Owned<'a> {
    ghost use Rattle.std.specs.Prelude.{List, ℕ};

    ghost Value = { List ℕ };

    ghost view = { λ o. o.left };
}

impl<'a> Owned<'a> {
    /// Returns the mutexes of this set.
    pub fn new(set: &'a NumberSet) -> Owned<'a>
        ensures { result ≡ members set.now.words }
    {
        Owned { left: set.iter() }
    }
}

impl<'a> Iterator for Owned<'a> {
    type Item = MutexNo;

    ghost next_gives = { YieldsFirst (λ rest. rest) };

    ghost remaining = { item_count (λ rest. rest) };

    fn next(&mut self) -> Option<MutexNo> {
        let number = self.left.next()?;
        Some(MutexNo(number))
    }
}
