//! The thread and the mutex that a line names.

ghost use Rattle.std.specs.Prelude.{◌≡◌, None};
ghost use Rattle.pim_rows.specs.Found.{actor, mutex_of, locked_mutex, asked_mutex, of_fact};
ghost use Rattle.pim_world.specs.Standing.{waits};
ghost use Rattle.pim_world.specs.Held.{world_of};

use pim_fact_lines::{Line, What};
use pim_waits::{MutexPlace, ThreadPlace};
use pim_world::World;

/// Returns the thread of a line, or `None` if it has none. Takes the world before it.
pub fn actor(world: &World, line: &Line) -> Option<ThreadPlace>
    ensures { result ≡ actor (world_of world.now) line.now }
{
    match line {
        Line::Fact {
            time: _,
            thread,
            what: _,
        } => world.thread(*thread),
        Line::Thread(_, _)
        | Line::Mutex {
            number: _,
            is_recursive: _,
            protocol: _,
        }
        | Line::Object(_)
        | Line::Unseen
        | Line::Lost { time: _ }
        | Line::End { time: _ } => None,
    }
}

/// Returns the mutex that a line locks or releases, or `None` if it does neither. Takes the world
/// before it.
pub fn locked_mutex(world: &World, line: &Line) -> Option<MutexPlace>
    ensures { result ≡ mutex_of (world_of world.now) line.now }
{
    match line {
        Line::Fact {
            time: _,
            thread,
            what,
        } => {
            let _thread = world.thread(*thread)?;
            mutex_locked_by(world, what)
        }
        Line::Thread(_, _)
        | Line::Mutex {
            number: _,
            is_recursive: _,
            protocol: _,
        }
        | Line::Object(_)
        | Line::Unseen
        | Line::Lost { time: _ }
        | Line::End { time: _ } => None,
    }
}

/// Returns the mutex that a line's thread asks for, or `None` if it asks for none. Takes the world
/// before it.
pub(crate) fn asked_mutex(world: &World, line: &Line) -> Option<MutexPlace>
    ensures { result ≡ of_fact None
        (λ t what. asked_mutex (world_of world.now) t what) (world_of world.now) line.now }
{
    match line {
        Line::Fact {
            time: _,
            thread,
            what,
        } => {
            let thread = world.thread(*thread)?;
            mutex_asked_by(world, thread, what)
        }
        Line::Thread(_, _)
        | Line::Mutex {
            number: _,
            is_recursive: _,
            protocol: _,
        }
        | Line::Object(_)
        | Line::Unseen
        | Line::Lost { time: _ }
        | Line::End { time: _ } => None,
    }
}

/// Returns the mutex that is locked or released.
fn mutex_locked_by(world: &World, what: &What) -> Option<MutexPlace>
    ensures { result ≡ locked_mutex (world_of world.now) what.now }
{
    match what {
        What::Granted(number) => world.mutex(*number),
        What::Took(number) => world.mutex(*number),
        What::Released(number) => world.mutex(*number),
        What::Waits(_)
        | What::GaveUp(_)
        | What::Priority(_)
        | What::Ceiling(_, _)
        | What::Blocks(_)
        | What::Resumes(_, _)
        | What::Runs(_)
        | What::On(_)
        | What::OffReady
        | What::OffAsleep => None,
    }
}

/// Returns the mutex that a thread asks for: by a wait, or by a grant that it doesn't wait for.
fn mutex_asked_by(world: &World, thread: ThreadPlace, what: &What) -> Option<MutexPlace>
    ensures { result ≡ asked_mutex (world_of world.now) thread what.now }
{
    match what {
        What::Granted(number) => {
            if waits(world, thread) {
                None
            } else {
                world.mutex(*number)
            }
        }
        What::Waits(number) => world.mutex(*number),
        What::Took(_)
        | What::GaveUp(_)
        | What::Released(_)
        | What::Priority(_)
        | What::Ceiling(_, _)
        | What::Blocks(_)
        | What::Resumes(_, _)
        | What::Runs(_)
        | What::On(_)
        | What::OffReady
        | What::OffAsleep => None,
    }
}

/// Returns whether a thread waits for a mutex.
fn waits(world: &World, thread: ThreadPlace) -> bool
    ensures { result ≡ waits thread (world_of world.now) }
{
    world.waits().awaited(thread).is_some()
}
