//! The deadlocks at the end.

ghost use Rattle.std.specs.Prelude.{◌≡◌, ◌++◌, ◌∷◌, [], length, map, drop, IfOk, IsTrue};
ghost use Rattle.std.specs.Prelude.{if◌then◌else◌};
ghost use Rattle.std.specs.Map.{values_of};
ghost use Rattle.pim_base.specs.Chains.{blocker};
ghost use Rattle.pim_rows.specs.Rows.{by_number, cycle, is_least, is_first_of_cycle, deadlock_rows};
ghost use Rattle.pim_rows.specs.Rows.{text_of};
ghost use Rattle.pim_base.specs.Lists.{contains};
ghost use Rattle.pim_waits.specs.Waiting.{way};
ghost use Rattle.pim_rows.specs.Rows.{row, row_text};
ghost use Rattle.pim_rows.specs.declared.row.Word.TheVariants as words;
ghost use Rattle.pim_world.specs.Standing.{thread_number};
ghost use Rattle.pim_world.specs.Held.{world_of};

use crate::row::Word;
use crate::rows_text::put_row;
use pim_waits::{ThreadPlace, Waits};
use pim_world::World;
use std::alloc::{AllocError, Global};
use std::collections::BTreeMap;

/// Returns the places of the threads, in ascending order of their numbers.
///
/// # Errors
///
/// Returns `AllocError` if out of memory.
pub fn by_number(alloc: Global, world: &World) -> Result<Vec<ThreadPlace>, AllocError>
    ensures { IfOk result (λ places. places.items ≡ by_number (world_of world.now)) }
{
    let count = count_threads(world.waits())?;
    let mut places = BTreeMap::new(alloc);
    for index in 0..count {
        let place = ThreadPlace(index + 1);
        let number = world.thread_number(place);
        let Ok(_) = places.insert((number, index + 1), place) else {
            return Err(AllocError);
        };
    }
    let places = values(alloc, &places)?;
    Ok(places)
}

/// Returns the values of a map, in the order of the keys.
pub(crate) fn values(
    alloc: Global,
    places: &BTreeMap<(u64, usize), ThreadPlace>,
) -> Result<Vec<ThreadPlace>, AllocError>
    ensures { IfOk result (λ all. all.items ≡ values_of places.now.entries) }
{
    places.values().copied().collect(alloc)
}

/// Appends a row for each deadlock, and returns how many there are.
///
/// # Errors
///
/// Returns `AllocError` if out of memory.
pub fn put_deadlocks(out: &mut Vec<u8>, alloc: Global, world: &World) -> Result<u64, AllocError>
    ensures text { IfOk result
        (λ _. out.new.items ≡ out.old.items ++ text_of (deadlock_rows (world_of world.now))) }
    ensures count { IfOk result (λ count. count ≡ length (deadlock_rows (world_of world.now))) }
{
    let threads = count_threads(world.waits())?;
    let places = by_number(alloc, world)?;
    let mut numbers = Vec::new(alloc);
    let mut count = 0;
    for place in &places {
        if put_deadlock(out, world, threads, *place, &mut numbers)? {
            count += 1;
        }
    }
    Ok(count)
}

/// Appends the row of the cycle of waits on which a thread is, if it is on one and no thread of it
/// has a lower number. Returns whether there is such a row.
///
/// # Errors
///
/// Returns `AllocError` if out of memory.
fn put_deadlock(
    out: &mut Vec<u8>,
    world: &World,
    threads: usize,
    thread: ThreadPlace,
    numbers: &mut Vec<u64>,
) -> Result<bool, AllocError>
    requires { threads ≡ length (world_of world.now).state.base }
    ensures first { IfOk result
        (λ is_first. is_first ≡ is_first_of_cycle (world_of world.now) thread) }
    ensures text { IfOk result (λ is_first. let w = world_of world.now in
        out.new.items ≡ out.old.items
        ++ (if is_first then row_text (row words.Deadlock (cycle w thread)) else [])) }
{
    if !find_cycle(world, threads, thread, numbers)? {
        return Ok(false);
    }
    if !is_least(world.thread_number(thread), numbers) {
        return Ok(false);
    }
    put_row(out, Word::Deadlock, numbers)?;
    Ok(true)
}

/// Returns whether a thread is on a cycle of waits, and if it is, puts the numbers of the cycle's
/// threads, from it on.
///
/// # Errors
///
/// Returns `AllocError` if out of memory.
fn find_cycle(
    world: &World,
    count: usize,
    thread: ThreadPlace,
    numbers: &mut Vec<u64>,
) -> Result<bool, AllocError>
    requires { count ≡ length (world_of world.now).state.base }
    ensures found { IfOk result
        (λ found. found ≡ contains (drop 1 (way (world_of world.now).state thread)) thread) }
    ensures numbers { IfOk result
        (λ found. IsTrue found → numbers.new.items ≡ cycle (world_of world.now) thread) }
{
    numbers.clear();
    push_number(world, thread, numbers)?;
    let mut next = blocker(world, thread);
    for hop in 0..count {
        let Some(there) = next else {
            return Ok(false);
        };
        if there.0 == thread.0 {
            return Ok(true);
        }
        push_number(world, there, numbers)?;
        next = blocker(world, there);
    }
    Ok(false)
}

/// Appends the number of a thread.
fn push_number(world: &World, thread: ThreadPlace, numbers: &mut Vec<u64>) -> Result<(), AllocError>
    ensures { IfOk result (λ _.
        numbers.new.items ≡ numbers.old.items ++ thread_number (world_of world.now) thread ∷ []) }
{
    match numbers.push(world.thread_number(thread)) {
        Ok(()) => Ok(()),
        Err(_) => Err(AllocError),
    }
}

/// Returns whether none of the numbers is below this one.
fn is_least(number: u64, numbers: &[u64]) -> bool
    ensures { result ≡ is_least number numbers.now }
{
    for other in numbers {
        if *other < number {
            return false;
        }
    }
    true
}

/// Returns how many threads there are.
///
/// # Errors
///
/// Returns `AllocError` if there are 2^64 - 1.
fn count_threads(waits: &Waits) -> Result<usize, AllocError>
    ensures { IfOk result (λ count. count ≡ length waits.now.base) }
{
    for index in 0..usize::MAX {
        if waits.level(ThreadPlace(index + 1)).is_none() {
            return Ok(index);
        }
    }
    Err(AllocError)
}

/// Returns the owner of the mutex for which a thread waits, or `None` if there is none.
fn blocker(world: &World, thread: ThreadPlace) -> Option<ThreadPlace>
    ensures { result ≡ blocker (world_of world.now).state thread }
{
    let waits = world.waits();
    let mutex = waits.awaited(thread)?;
    waits.owner(mutex)
}
