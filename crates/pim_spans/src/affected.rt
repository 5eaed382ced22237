//! The threads that a line affects.

ghost use Rattle.std.specs.Prelude.{◌≡◌, List, false, [], IfOk};
ghost use Rattle.pim_waits.specs.Touched.{Touches};
ghost use Rattle.pim_world.specs.After.{after};
ghost use Rattle.pim_world.specs.Held.{world_of, touched_of};
ghost use Rattle.pim_world.specs.Touching.{declares};
ghost use Rattle.pim_rows.specs.Affected.{AreWaits};
ghost use Rattle.pim_rows.specs.Found.{actor};
ghost use Rattle.pim_rows.specs.Moments.{Moment, now};
ghost use Rattle.pim_spans.specs.Following.{AreUnmovedBy, with_first};

use pim_fact_lines::Line;
use pim_rows::{affects_all, put_all_threads};
use pim_waits::ThreadPlace;
use pim_world::World;
use std::alloc::{AllocError, Global};

/// Returns the threads of which something else may hold after a line than before. Takes the world
/// after it, and its thread.
///
/// A line affects its thread and those that it touches. A declaration, and a line of an object,
/// affect all.
///
/// # Errors
///
/// Returns `AllocError` if out of memory.
pub(crate) fn affected(
    alloc: Global,
    world: &World,
    line: &Line,
    thread: Option<ThreadPlace>,
) -> Result<Vec<ThreadPlace>, AllocError>
    ensures { IfOk result (λ threads. (ms : List Moment)
        → world_of world.now ≡ after (now ms) line.now → AreWaits (now ms)
        → thread ≡ actor (now ms) line.now
        → (declares line.now ≡ false
        → Touches (now ms).state (world_of world.now).state [] (touched_of world.now))
        → AreUnmovedBy ms line.now threads.items) }
{
    if affects_all(line) {
        let mut threads = Vec::new(alloc);
        put_all_threads(&mut threads, world)?;
        return Ok(threads);
    }
    let threads = touched(alloc, world, thread)?;
    Ok(threads)
}

/// Returns the thread of a line, if it has one, and those that it touched.
fn touched(
    alloc: Global,
    world: &World,
    thread: Option<ThreadPlace>,
) -> Result<Vec<ThreadPlace>, AllocError>
    ensures { IfOk result (λ threads. threads.items ≡ with_first thread (touched_of world.now)) }
{
    let mut threads = Vec::new(alloc);
    if let Some(thread) = thread {
        let Ok(()) = threads.push(thread) else {
            return Err(AllocError);
        };
    }
    threads.extend_from_slice(world.touched())?;
    Ok(threads)
}
