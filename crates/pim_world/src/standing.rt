//! What holds of a waiting thread.

ghost use Rattle.std.specs.Prelude.{◌≡◌, ◌↔◌, IsTrue, Some, unwrap_or};
ghost use Rattle.std.specs.Option.{option_map};
ghost use Rattle.pim_world.specs.Held.{world_of, kernel_of};
ghost use Rattle.pim_world.specs.Standing.{run_level, is_ready_off, in_place_of, meanwhile_of};
ghost use Rattle.pim_world.specs.Standing.{mutex_number, inverted_key, meanwhile_key, standing};
ghost use Rattle.pim_waits.specs.Waiting.{blame};
ghost use Rattle.pim_waits.specs.Waiting as waiting;

use crate::kernel::{KernelEvents, Off};
use crate::world::World;
use pim_waits::{MutexPlace, ThreadPlace};

/// Three numbers by which times are summed. Where only two are needed, the third one is 0.
pub type Key = (u64, u64, u64);

/// What holds of a waiting thread.
#[derive(Clone, Copy, PartialEq)]
pub struct Standing {
    /// It has a runner that could run, and whose level is below what the thread gets.
    pub lower: bool,
    /// The thread is inverted: by the blamed mutex, the runner, and what that gets.
    pub inverted: Option<Key>,
    /// Its runner is blocked: by the object and the runner.
    pub stalled: Option<Key>,
    /// Another thread runs in place of the runner: by that thread and its level.
    pub meanwhile: Option<Key>,
}

impl Standing {
    /// Returns what holds of a thread.
    pub fn of(world: &World, thread: ThreadPlace) -> Standing
        ensures { result ≡ standing (world_of world.now) thread }
    {
        match world.waits().runner(thread) {
            Some(runner) => with_runner(world, thread, runner),
            None => Standing {
                lower: false,
                inverted: None,
                stalled: None,
                meanwhile: None,
            },
        }
    }

    /// Returns whether the same holds.
    pub fn is(&self, other: &Standing) -> bool
        ensures { IsTrue result ↔ (self.now ≡ other.now) }
    {
        self == other
    }
}

/// Returns what holds of a thread with this runner.
fn with_runner(world: &World, thread: ThreadPlace, runner: ThreadPlace) -> Standing
    requires { waiting.runner (world_of world.now).state thread ≡ Some runner }
    ensures { result ≡ standing (world_of world.now) thread }
{
    if let Some(object) = world.blocked(runner) {
        return Standing {
            lower: false,
            inverted: None,
            stalled: Some((object.0, world.thread_number(runner), 0)),
            meanwhile: None,
        };
    }
    let gets = world.gets(thread);
    let lower = world.level(runner) < gets;
    if world.gets(runner) < gets {
        let inverted = inverted_key(world, thread, runner);
        let meanwhile = meanwhile_by(world, thread, runner);
        return Standing {
            lower,
            inverted: Some(inverted),
            stalled: None,
            meanwhile,
        };
    }
    Standing {
        lower,
        inverted: None,
        stalled: None,
        meanwhile: None,
    }
}

/// Returns the level at which a thread is run: what the kernel says, or else what it gets.
fn run_level(world: &World, thread: ThreadPlace) -> u64
    ensures { result ≡ run_level (world_of world.now) thread }
{
    match world.kernel().runs(thread) {
        Some(level) => u64::from(level.get()),
        None => world.gets(thread),
    }
}

/// Returns whether a thread that is off a CPU so could run.
fn is_ready_off(off: Option<Off>) -> bool
    ensures { result ≡ is_ready_off off }
{
    match off {
        Some(Off::Ready) => true,
        Some(Off::Asleep) | None => false,
    }
}

/// Returns the thread that is on the CPU where a ready one was last.
fn in_place_of(kernel: &KernelEvents, runner: ThreadPlace) -> Option<ThreadPlace>
    ensures { result ≡ in_place_of (kernel_of kernel.now) runner }
{
    if !is_ready_off(kernel.off(runner)) {
        return None;
    }
    match kernel.last_cpu(runner) {
        Some(cpu) => kernel.on(cpu),
        None => None,
    }
}

/// Returns the thread that runs in place of the runner of an inverted thread.
fn meanwhile_of(world: &World, thread: ThreadPlace, runner: ThreadPlace) -> Option<ThreadPlace>
    ensures { result ≡ meanwhile_of (world_of world.now) thread runner }
{
    let other = in_place_of(world.kernel(), runner)?;
    if other.0 != thread.0 && run_level(world, other) < world.gets(thread) {
        Some(other)
    } else {
        None
    }
}

/// Returns the number of the blamed mutex, or 0.
fn blamed_number(world: &World, thread: ThreadPlace) -> u64
    ensures { let w = world_of world.now in
        result ≡ mutex_number w (unwrap_or (blame w.state thread) 0) }
{
    match world.waits().blame(thread) {
        Some(mutex) => world.mutex_number(mutex),
        None => world.mutex_number(MutexPlace(0)),
    }
}

/// Returns the blamed mutex, the runner, and what that gets.
fn inverted_key(world: &World, thread: ThreadPlace, runner: ThreadPlace) -> Key
    ensures { result ≡ inverted_key (world_of world.now) thread runner }
{
    (
        blamed_number(world, thread),
        world.thread_number(runner),
        world.gets(runner),
    )
}

/// Returns which thread runs in place of the runner of an inverted thread, and at which level.
fn meanwhile_by(world: &World, thread: ThreadPlace, runner: ThreadPlace) -> Option<Key>
    ensures { let w = world_of world.now in
        result ≡ option_map (meanwhile_key w) (meanwhile_of w thread runner) }
{
    let other = meanwhile_of(world, thread, runner)?;
    Some((world.thread_number(other), run_level(world, other), 0))
}
