//! What is counted by three numbers.

ghost use Rattle.std.specs.Prelude.{◌≡◌, [], IfOk};
ghost use Rattle.std.specs.BTreeMap.{insert_entry, is_at};
ghost use Rattle.std.specs.List.Sorted.{IsStrictlySortedBy};
ghost use Rattle.std.specs.Map.{keys_of, lookup};
ghost use Rattle.pim_rows.specs.Tables.{key_cmp};

use pim_world::Key;
use std::alloc::{AllocError, Global};
use std::collections::BTreeMap;
use std::marker::Model;

/// By key, what was counted so far.
///
/// In contracts its value is the table, in ascending order of the keys.
#[derive(Drop)]
pub struct RowTable<V: Copy> {
    pub(crate) rows: BTreeMap<Key, V>,
}

impl<V: Copy> Model for RowTable<V> {
    ghost use Rattle.pim_rows.specs.Tables.{Table};

    ghost Value = { Table V };

    ghost view = { λ t. t.rows.entries };
}

impl<V: Copy> RowTable<V> {
    /// Returns a table without rows.
    pub fn new(alloc: Global) -> RowTable<V>
        ensures { result ≡ [] }
    {
        RowTable {
            rows: BTreeMap::new(alloc),
        }
    }

    /// Returns what was counted of a key, if it has a row.
    pub(crate) fn get(&self, key: Key) -> Option<V>
        ensures value { result ≡ lookup (is_at (key_cmp key)) self.now }
        ensures ascending { IsStrictlySortedBy key_cmp (keys_of self.now) }
    {
        // The call says that the keys ascend.
        let _len = self.rows.len();
        self.rows.get(&key).copied()
    }

    /// Puts what was counted of a key.
    pub(crate) fn set(&mut self, key: Key, value: V) -> Result<(), AllocError>
        ensures { IfOk result (λ _. self.new ≡ insert_entry key_cmp self.old key value) }
    {
        match self.rows.insert(key, value) {
            Ok(_) => Ok(()),
            Err(_) => Err(AllocError),
        }
    }
}
