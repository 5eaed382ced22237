//! The threads that a line affects.

ghost use Rattle.std.specs.Prelude.{◌≡◌, ◌++◌, ℕ, List, true, false, [], IfOk};
ghost use Rattle.pim_base.specs.Lists.{contains};
ghost use Rattle.pim_base.specs.State.{IsTask};
ghost use Rattle.pim_waits.specs.Touched.{Touches};
ghost use Rattle.pim_world.specs.After.{after};
ghost use Rattle.pim_world.specs.Held.{world_of, touched_of};
ghost use Rattle.pim_world.specs.Touching.{declares};
ghost use Rattle.pim_rows.specs.AllOpen.{AreOpen, AreSame};
ghost use Rattle.pim_rows.specs.Affected.{AreWaits, affects_all, is_of_object, is_of_state};
ghost use Rattle.pim_rows.specs.Affected.{keeps_rest};
ghost use Rattle.pim_rows.specs.Moments.{Moment, now};

use crate::open_waits::OpenWaits;
use pim_fact_lines::{Line, What};
use pim_waits::ThreadPlace;
use pim_world::World;
use std::alloc::AllocError;

/// Puts in a list, in place of what it had, the threads of which something else may hold after a
/// line than before, if they wait. Takes the world after it, and the waits that are kept, as they
/// were before it.
///
/// A line affects the threads that it touches. What the kernel does affects a thread only while it
/// is inverted. A declaration, and a line of an object, affect all.
///
/// # Errors
///
/// Returns `AllocError` if out of memory.
pub(crate) fn put_affected(
    threads: &mut Vec<ThreadPlace>,
    world: &World,
    line: &Line,
    opens: &OpenWaits,
) -> Result<(), AllocError>
    ensures { IfOk result (λ _.
        (ms : List Moment) → world_of world.now ≡ after (now ms) line.now → AreWaits (now ms)
        → (declares line.now ≡ false
        → Touches (now ms).state (world_of world.now).state [] (touched_of world.now))
        → AreOpen opens.now.opens.items ms
        → AreSame (now ms) (after (now ms) line.now) threads.new.items) }
{
    threads.clear();
    if affects_all(line) {
        put_all_threads(threads, world)?;
        return Ok(());
    }
    if keeps_rest(line) && world.kernel().is_idle() {
        put_touched(threads, world)?;
        return Ok(());
    }
    opens.put_inverted(threads)?;
    put_touched(threads, world)?;
    Ok(())
}

/// Returns whether a line declares a thread or a mutex, or a thread is blocked by it, or isn't any
/// more.
pub fn affects_all(line: &Line) -> bool
    ensures { result ≡ affects_all line.now }
{
    match line {
        Line::Thread(_, _)
        | Line::Mutex {
            number: _,
            is_recursive: _,
            protocol: _,
        } => true,
        Line::Fact {
            time: _,
            thread: _,
            what,
        } => is_of_object(what),
        Line::Object(_) | Line::Unseen | Line::Lost { time: _ } | Line::End { time: _ } => false,
    }
}

/// Returns whether it is of an object.
fn is_of_object(what: &What) -> bool
    ensures { result ≡ is_of_object what.now }
{
    match what {
        What::Blocks(_) | What::Resumes(_, _) => true,
        What::Granted(_)
        | What::Took(_)
        | What::Waits(_)
        | What::GaveUp(_)
        | What::Released(_)
        | What::Priority(_)
        | What::Ceiling(_, _)
        | What::Runs(_)
        | What::On(_)
        | What::OffReady
        | What::OffAsleep => false,
    }
}

/// Appends the threads that the last line touched.
fn put_touched(threads: &mut Vec<ThreadPlace>, world: &World) -> Result<(), AllocError>
    ensures { IfOk result (λ _. threads.new.items ≡ threads.old.items ++ touched_of world.now) }
{
    threads.extend_from_slice(world.touched())
}

/// Appends all threads.
///
/// # Errors
///
/// Returns `AllocError` if out of memory.
pub fn put_all_threads(threads: &mut Vec<ThreadPlace>, world: &World) -> Result<(), AllocError>
    ensures { IfOk result (λ _.
        (t : ℕ) → IsTask (world_of world.now).state t → contains threads.new.items t ≡ true) }
{
    for index in 0..world.waits().threads() {
        let Ok(()) = threads.push(ThreadPlace(index + 1)) else {
            return Err(AllocError);
        };
    }
    Ok(())
}

/// Returns whether a line is of mutexes or levels, or says nothing of any thread.
fn keeps_rest(line: &Line) -> bool
    ensures { result ≡ keeps_rest line.now }
{
    match line {
        Line::Object(_) | Line::Unseen | Line::End { time: _ } => true,
        Line::Fact {
            time: _,
            thread: _,
            what,
        } => is_of_state(what),
        Line::Thread(_, _)
        | Line::Mutex {
            number: _,
            is_recursive: _,
            protocol: _,
        }
        | Line::Lost { time: _ } => false,
    }
}

/// Returns whether it is of mutexes or levels.
fn is_of_state(what: &What) -> bool
    ensures { result ≡ is_of_state what.now }
{
    match what {
        What::Granted(_)
        | What::Took(_)
        | What::Waits(_)
        | What::GaveUp(_)
        | What::Released(_)
        | What::Priority(_)
        | What::Ceiling(_, _) => true,
        What::Blocks(_)
        | What::Resumes(_, _)
        | What::Runs(_)
        | What::On(_)
        | What::OffReady
        | What::OffAsleep => false,
    }
}
