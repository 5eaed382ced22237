//! Times that are summed by three numbers.

ghost use Rattle.std.specs.Prelude.{◌≡◌, ◌+◌, ◌<◌, ◌^◌, [], IfOk, OnErr, unwrap_or, ◌≤◌, length};
ghost use Rattle.std.specs.List.{position, insert};
ghost use Rattle.pim_rows.specs.Tables.{same_key, precedes, reaches, place, value_at, change, add};
ghost use Rattle.pim_rows.specs.Tables.{total};

use pim_world::Key;
use std::alloc::{AllocError, Global};
use std::marker::Model;

/// Times by key, in ascending order of the keys. Each time is above 0.
///
/// In contracts its value is the list of its rows.
#[derive(Drop)]
pub struct Times {
    rows: Vec<(Key, u64)>,
}

impl Model for Times {
    ghost use Rattle.std.specs.Prelude.{ℕ, ◌<◌, ◌^◌};
    ghost use Rattle.pim_rows.specs.Tables.{Table, total};

    ghost Value = { Table ℕ };

    ghost view = { λ times. times.rows.items };

    ghost invariant = { λ times. total times.rows.items < 2 ^ 64 };
}

impl Times {
    /// Returns a table without times.
    pub fn new(alloc: Global) -> Times
        ensures { result ≡ [] }
    {
        Times {
            rows: Vec::new(alloc),
        }
    }

    /// Returns the rows, in ascending order of their keys.
    pub fn rows(&self) -> &[(Key, u64)]
        ensures { result.now ≡ self.now }
    {
        &self.rows
    }

    /// Returns the sum of all times.
    pub fn total(&self) -> u64
        ensures { result ≡ total self.now }
    {
        self.rows.iter().map(|row| row.1).sum()
    }

    /// Adds a time to that of a key. Nothing changes if there is no key.
    ///
    /// # Errors
    ///
    /// Returns `AllocError` if out of memory. Nothing has changed then.
    pub fn add(&mut self, key: Option<Key>, time: u64) -> Result<(), AllocError>
        requires { total self.old + time < 2 ^ 64 }
        ensures ok { IfOk result (λ _. self.new ≡ add key time self.old) }
        ensures err { OnErr result (self.new ≡ self.old) }
    {
        if time == 0 {
            return Ok(());
        }
        match key {
            Some(key) => add_row(&mut self.rows, key, time),
            None => Ok(()),
        }
    }
}

/// Adds a time to the row of a key, or puts a row for it in its place.
#[tactic(auto, using(crate::proofs::Changes::changes))]
fn add_row(rows: &mut Vec<(Key, u64)>, key: Key, time: u64) -> Result<(), AllocError>
    requires { total rows.old.items + time < 2 ^ 64 }
    ensures ok { IfOk result
        (λ _. rows.new.items ≡ change key (λ sum. unwrap_or sum 0 + time) rows.old.items) }
    ensures err { OnErr result (rows.new.items ≡ rows.old.items) }
{
    let place = place_of(rows, key);
    match time_at(rows, place, key) {
        Some(sum) => {
            rows[place] = (key, sum + time);
            Ok(())
        }
        None => put_row(rows, place, (key, time)),
    }
}

fn put_row(rows: &mut Vec<(Key, u64)>, place: usize, row: (Key, u64)) -> Result<(), AllocError>
    requires { place ≤ length rows.old.items }
    ensures ok { IfOk result (λ _. rows.new.items ≡ insert rows.old.items place row) }
    ensures err { OnErr result (rows.new.items ≡ rows.old.items) }
{
    match rows.insert(place, row) {
        Ok(()) => Ok(()),
        Err(_) => Err(AllocError),
    }
}

/// Returns the time of a key if its row is at this place.
fn time_at(rows: &[(Key, u64)], place: usize, key: Key) -> Option<u64>
    ensures { result ≡ value_at key rows.now place }
{
    match rows.get(place) {
        Some(row) if is_same(row.0, key) => Some(row.1),
        _ => None,
    }
}

/// Returns the place of the row of a key or, if there is none, the one where it belongs.
#[tactic(auto, using(crate::proofs::Changes::changes))]
fn place_of(rows: &[(Key, u64)], key: Key) -> usize
    ensures { result ≡ place key rows.now }
{
    first_reaching(rows, key).unwrap_or(rows.len())
}

/// Returns the place of the first row that isn't before a key.
fn first_reaching(rows: &[(Key, u64)], key: Key) -> Option<usize>
    ensures { result ≡ position (reaches key) rows.now }
{
    rows.iter()
        .position(|row| is_same(row.0, key) || precedes(key, row.0))
}

fn is_same(one: Key, other: Key) -> bool
    ensures { result ≡ same_key one other }
{
    one.0 == other.0 && one.1 == other.1 && one.2 == other.2
}

/// Returns whether the first number in which the keys differ is smaller in the first one.
fn precedes(one: Key, other: Key) -> bool
    ensures { result ≡ precedes one other }
{
    if one.0 != other.0 {
        return one.0 < other.0;
    }
    if one.1 != other.1 {
        return one.1 < other.1;
    }
    one.2 < other.2
}
