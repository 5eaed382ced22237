//! What held before a line.

ghost use Rattle.std.specs.Prelude.{◌≡◌, ℕ, Some};
ghost use Rattle.pim_world.specs.Held.{world_of};
ghost use Rattle.pim_world.specs.Standing.{waits, is_off};
ghost use Rattle.pim_rows.specs.Begun.{is_blocked, is_owned};
ghost use Rattle.pim_rows.specs.Tracking.{IsBefore};

use pim_waits::{MutexPlace, ThreadPlace};
use pim_world::World;

/// What held before a line, of its thread and of the mutex that it locks or releases.
#[derive(Clone, Copy)]
pub(crate) struct Before {
    /// Whether the thread waited for a mutex.
    pub(crate) waits: bool,
    /// Whether the thread was blocked at an object.
    pub(crate) blocked: bool,
    /// Whether the thread was off a CPU.
    pub(crate) off: bool,
    /// Whether the mutex was owned.
    pub(crate) owned: bool,
}

impl Before {
    /// Returns what holds of a thread and a mutex.
    pub(crate) fn of(
        world: &World,
        thread: &Option<ThreadPlace>,
        mutex: &Option<MutexPlace>,
    ) -> Before
        ensures { IsBefore result (world_of world.now) thread.now mutex.now }
    {
        let waits = waits(world, *thread);
        let blocked = is_blocked(world, *thread);
        let off = is_off(world, *thread);
        let owned = is_owned(world, *mutex);
        Before {
            waits,
            blocked,
            off,
            owned,
        }
    }
}

/// Returns whether a thread waits for a mutex.
fn waits(world: &World, thread: Option<ThreadPlace>) -> bool
    ensures { (t : ℕ) → thread ≡ Some t → result ≡ waits t (world_of world.now) }
{
    match thread {
        Some(thread) => world.waits().awaited(thread).is_some(),
        None => false,
    }
}

/// Returns whether a thread is blocked at an object.
fn is_blocked(world: &World, thread: Option<ThreadPlace>) -> bool
    ensures { (t : ℕ) → thread ≡ Some t → result ≡ is_blocked t (world_of world.now) }
{
    match thread {
        Some(thread) => world.blocked(thread).is_some(),
        None => false,
    }
}

/// Returns whether a thread is off a CPU.
fn is_off(world: &World, thread: Option<ThreadPlace>) -> bool
    ensures { (t : ℕ) → thread ≡ Some t → result ≡ is_off t (world_of world.now) }
{
    match thread {
        Some(thread) => world.kernel().is_off(thread),
        None => false,
    }
}

/// Returns whether a mutex is owned.
fn is_owned(world: &World, mutex: Option<MutexPlace>) -> bool
    ensures { (m : ℕ) → mutex ≡ Some m → result ≡ is_owned m (world_of world.now) }
{
    match mutex {
        Some(mutex) => world.waits().owner(mutex).is_some(),
        None => false,
    }
}
