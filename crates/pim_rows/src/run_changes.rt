//! The levels of threads before a line and after it.

ghost use Rattle.std.specs.Prelude.{◌≡◌, ◌++◌, ◌∷◌, [], ℕ, List, true, false, IfOk, map};
ghost use Rattle.std.specs.Option.{option_map_or};
ghost use Rattle.pim_waits.specs.Touched.{Touches};
ghost use Rattle.pim_world.specs.After.{after};
ghost use Rattle.pim_world.specs.Held.{world_of, touched_of};
ghost use Rattle.pim_world.specs.Touching.{declares};
ghost use Rattle.pim_world.specs.Worlds as worlds;
ghost use Rattle.pim_rows.specs.Begun.{run_apart};
ghost use Rattle.pim_rows.specs.Found.{actor};
ghost use Rattle.pim_rows.specs.Levels.{IsUnrun, MayChange, moves_all};
ghost use Rattle.pim_rows.specs.Rows.{by_number};
ghost use Rattle.pim_rows.specs.Runs.{IsEven, is_runs, runs_now, levels_of};

use crate::deadlocks::by_number;
use crate::in_order::in_order;
use crate::runs::RunLevels;
use pim_fact_lines::{Line, What};
use pim_waits::ThreadPlace;
use pim_world::World;
use std::alloc::{AllocError, Global};

/// Returns the level at which the kernel runs a thread and what that gets, if these are different.
pub(crate) fn run_apart(world: &World, thread: ThreadPlace) -> Option<(u64, u64)>
    ensures { result ≡ run_apart (world_of world.now) thread }
{
    let level = world.kernel().runs(thread)?;
    let level = u64::from(level.get());
    let gets = world.gets(thread);
    if level == gets {
        None
    } else {
        Some((level, gets))
    }
}

/// Returns the levels of all threads, in ascending order of their numbers.
///
/// # Errors
///
/// Returns `AllocError` if out of memory.
pub(crate) fn levels_of_all(alloc: Global, world: &World) -> Result<Vec<RunLevels>, AllocError>
    ensures { IfOk result (λ levels.
        levels.items ≡ map (levels_of (world_of world.now)) (by_number (world_of world.now))) }
{
    let threads = by_number(alloc, world)?;
    let mut levels = Vec::new(alloc);
    for thread in &threads {
        let one = RunLevels {
            thread: *thread,
            levels: run_apart(world, *thread),
        };
        let Ok(()) = levels.push(one) else {
            return Err(AllocError);
        };
    }
    Ok(levels)
}

/// Returns `false` only if no level at which the kernel runs a thread is known before a line or
/// after it. Takes the world before it.
pub(crate) fn may_run(world: &World, line: &Line) -> bool
    ensures { result ≡ false → IsUnrun (world_of world.now) line.now }
{
    world.kernel().is_run() || is_runs(line)
}

/// Returns all threads, in ascending order of their numbers, if a line may change the levels of all
/// of them. Takes the world before it, and what `may_run` returns.
///
/// # Errors
///
/// Returns `AllocError` if out of memory.
pub(crate) fn moved(
    alloc: Global,
    world: &World,
    line: &Line,
    may_run: bool,
) -> Result<Vec<ThreadPlace>, AllocError>
    ensures { IfOk result (λ threads.
        may_run ≡ true
        → moves_all line.now ≡ true → threads.items ≡ by_number (world_of world.now)) }
{
    if may_run && moves_all(line) {
        let threads = by_number(alloc, world)?;
        return Ok(threads);
    }
    Ok(Vec::new(alloc))
}

/// Returns the threads of which a line may have changed the levels, in ascending order of their
/// numbers. Takes the world after it, its thread, and what `may_run` and `moved` return.
///
/// # Errors
///
/// Returns `AllocError` if out of memory.
pub(crate) fn changed(
    alloc: Global,
    world: &World,
    line: &Line,
    thread: Option<ThreadPlace>,
    may_run: bool,
    moved: Vec<ThreadPlace>,
) -> Result<Vec<ThreadPlace>, AllocError>
    ensures { IfOk result
        (λ threads. (w : worlds.World) → world_of world.now ≡ after w line.now → IsEven w
        → thread ≡ actor w line.now
        → (may_run ≡ false → IsUnrun w line.now)
        → (may_run ≡ true → moves_all line.now ≡ true → moved.items ≡ by_number w)
        → (declares line.now ≡ false
        → Touches w.state (world_of world.now).state [] (touched_of world.now))
        → MayChange w line.now threads.items) }
{
    if !may_run {
        return Ok(Vec::new(alloc));
    }
    if moves_all(line) {
        return Ok(moved);
    }
    let touched = with_thread(alloc, world.touched(), thread)?;
    let threads = in_order(alloc, world, &touched)?;
    Ok(threads)
}

/// Returns these threads, and this one after them.
fn with_thread(
    alloc: Global,
    threads: &[ThreadPlace],
    thread: Option<ThreadPlace>,
) -> Result<Vec<ThreadPlace>, AllocError>
    ensures { IfOk result
        (λ all. all.items ≡ option_map_or (λ t. threads.now ++ t ∷ []) thread threads.now) }
{
    let mut all = Vec::new(alloc);
    all.extend_from_slice(threads)?;
    if let Some(thread) = thread {
        let Ok(()) = all.push(thread) else {
            return Err(AllocError);
        };
    }
    Ok(all)
}

/// Returns whether a line declares something, or forgets what the kernel did.
fn moves_all(line: &Line) -> bool
    ensures { result ≡ moves_all line.now }
{
    match line {
        Line::Thread(_, _)
        | Line::Mutex {
            number: _,
            is_recursive: _,
            protocol: _,
        }
        | Line::Lost { time: _ } => true,
        Line::Object(_)
        | Line::Unseen
        | Line::Fact {
            time: _,
            thread: _,
            what: _,
        }
        | Line::End { time: _ } => false,
    }
}

/// Returns whether a line says at which level the kernel runs a thread.
fn is_runs(line: &Line) -> bool
    ensures { result ≡ is_runs line.now }
{
    match line {
        Line::Fact {
            time: _,
            thread: _,
            what,
        } => runs_now(what),
        Line::Thread(_, _)
        | Line::Mutex {
            number: _,
            is_recursive: _,
            protocol: _,
        }
        | Line::Object(_)
        | Line::Unseen
        | Line::Lost { time: _ }
        | Line::End { time: _ } => false,
    }
}

/// Returns whether the kernel runs a thread at a level from now on.
fn runs_now(what: &What) -> bool
    ensures { result ≡ runs_now what.now }
{
    match what {
        What::Runs(_) => true,
        What::Granted(_)
        | What::Took(_)
        | What::Waits(_)
        | What::GaveUp(_)
        | What::Released(_)
        | What::Priority(_)
        | What::Ceiling(_, _)
        | What::Blocks(_)
        | What::Resumes(_, _)
        | What::On(_)
        | What::OffReady
        | What::OffAsleep => false,
    }
}
