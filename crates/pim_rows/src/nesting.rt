//! The requests that threads make within their sections.

ghost use Rattle.std.specs.Prelude.{◌≡◌, ◌+◌, ℕ, List, Some, None, IfOk};
ghost use Rattle.pim_base.specs.State.{owner_of};
ghost use Rattle.pim_fact_lines.specs.declared.line.Line.{Line};
ghost use Rattle.pim_world.specs.Worlds.{owns};
ghost use Rattle.pim_world.specs.Held.{world_of};
ghost use Rattle.pim_rows.specs.Moments.{Moment, now, number, followed_by};
ghost use Rattle.pim_rows.specs.Begun.{is_owned};
ghost use Rattle.pim_rows.specs.Begun.{grant};
ghost use Rattle.pim_rows.specs.Found.{actor, asked_mutex, of_fact, put_nest, put_nests, nests};
ghost use Rattle.pim_rows.specs.Kept.{kept_of};
ghost use Rattle.pim_rows.specs.Kept.{AreStarts};

use crate::grants::Grants;
use crate::nest_table::{Nests, add_nest};
use crate::row_table::RowTable;
use pim_waits::{MutexPlace, ThreadPlace};
use pim_world::World;
use std::alloc::AllocError;

/// Puts the requests of a line, if it has some. Takes the world before it, its thread, the mutex
/// that this asks for, its number, and the ownerships before it.
///
/// # Errors
///
/// Returns `AllocError` if out of memory.
pub(crate) fn put_nests(
    table: &mut RowTable<Nests>,
    world: &World,
    thread: Option<ThreadPlace>,
    asked: Option<MutexPlace>,
    line: u64,
    grants: &Grants,
) -> Result<(), AllocError>
    ensures { IfOk result
        (λ _. (ms : List Moment) (l : Line) → world_of world.now ≡ now ms → line ≡ number ms + 1
        → thread ≡ actor (now ms) l
        → asked ≡ of_fact None (λ t what. asked_mutex (now ms) t what) (now ms) l
        → AreStarts is_owned grant (kept_of grants.now.starts) ms
        → table.old ≡ nests ms → table.new ≡ nests (followed_by ms l)) }
{
    let Some(mutex) = asked else {
        return Ok(());
    };
    let Some(thread) = thread else {
        return Ok(());
    };
    put_nests_of(table, world, thread, mutex, line, grants)?;
    Ok(())
}

/// Puts the requests of a thread for a mutex, within each of its sections.
fn put_nests_of(
    table: &mut RowTable<Nests>,
    world: &World,
    thread: ThreadPlace,
    mutex: MutexPlace,
    line: u64,
    grants: &Grants,
) -> Result<(), AllocError>
    ensures { IfOk result
        (λ _. (ms : List Moment) → world_of world.now ≡ now ms → line ≡ number ms + 1
        → AreStarts is_owned grant (kept_of grants.now.starts) ms
        → table.new ≡ put_nests ms thread mutex table.old) }
{
    if owns(world, thread, mutex) {
        return Ok(());
    }
    let mut last = MutexPlace(0);
    while let Some(outer) = world.waits().next_owned(thread, last) {
        put_nest(table, world, thread, mutex, outer, line, grants)?;
        last = outer;
    }
    Ok(())
}

/// Puts the request of a thread for a mutex within its section at the outer one.
fn put_nest(
    table: &mut RowTable<Nests>,
    world: &World,
    thread: ThreadPlace,
    mutex: MutexPlace,
    outer: MutexPlace,
    line: u64,
    grants: &Grants,
) -> Result<(), AllocError>
    requires { owner_of (world_of world.now).state outer ≡ Some thread }
    ensures { IfOk result
        (λ _. (ms : List Moment) → world_of world.now ≡ now ms → line ≡ number ms + 1
        → AreStarts is_owned grant (kept_of grants.now.starts) ms
        → table.new ≡ put_nest ms thread mutex table.old outer) }
{
    let key = (
        world.thread_number(thread),
        world.mutex_number(outer),
        world.mutex_number(mutex),
    );
    let taken = grants.line_of(world, outer);
    add_nest(table, key, taken, line)?;
    Ok(())
}

/// Returns whether a thread owns a mutex.
fn owns(world: &World, thread: ThreadPlace, mutex: MutexPlace) -> bool
    ensures { result ≡ owns (world_of world.now) thread mutex }
{
    match world.waits().owner(mutex) {
        Some(owner) => owner.0 == thread.0,
        None => false,
    }
}
