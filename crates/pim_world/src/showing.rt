//! What a world shows.

ghost use Rattle.std.specs.Prelude.{◌≡◌, unwrap_or};
ghost use Rattle.pim_base.specs.Lists.{nth};
ghost use Rattle.pim_base.specs.State.{base_of};
ghost use Rattle.pim_waits.specs.Waiting.{gets};
ghost use Rattle.pim_world.specs.Held.{world_of, kernel_of, touched_of};

use crate::kernel::KernelEvents;
use crate::world::World;
use pim_waits::{MutexPlace, ThreadPlace, Waits, nth};

impl World {
    /// Returns who owns and awaits what.
    pub fn waits(&self) -> &Waits
        ensures { result.now ≡ (world_of self.now).state }
    {
        &self.waits
    }

    /// Returns what the kernel did.
    pub fn kernel(&self) -> &KernelEvents
        ensures { kernel_of result.now ≡ (world_of self.now).kernel }
    {
        &self.kernel
    }

    /// Returns the greatest time so far, in nanoseconds.
    pub fn clock(&self) -> u64
        ensures { result ≡ (world_of self.now).clock }
    {
        self.clock
    }

    /// Returns the number of the thread at a place, or 0 if there is none.
    pub fn thread_number(&self, thread: ThreadPlace) -> u64
        ensures { result ≡ unwrap_or (nth (world_of self.now).threads thread) 0 }
    {
        match nth(&self.thread_numbers, thread.0) {
            Some(number) => u64::from(number.0),
            None => 0,
        }
    }

    /// Returns the number of the mutex at a place, or 0 if there is none.
    pub fn mutex_number(&self, mutex: MutexPlace) -> u64
        ensures { result ≡ unwrap_or (nth (world_of self.now).mutexes mutex) 0 }
    {
        match nth(&self.mutex_numbers, mutex.0) {
            Some(number) => number.0,
            None => 0,
        }
    }

    /// Returns the level of a thread, or 0 if there is none.
    pub fn level(&self, thread: ThreadPlace) -> u64
        ensures { result ≡ base_of (world_of self.now).state thread }
    {
        match self.waits.level(thread) {
            Some(level) => u64::from(level.get()),
            None => 0,
        }
    }

    /// Returns what a thread gets, or 0 if there is no such thread.
    pub fn gets(&self, thread: ThreadPlace) -> u64
        ensures { result ≡ gets (world_of self.now).state thread }
    {
        u64::from(self.waits.gets(thread).get())
    }

    /// Returns the threads that the last line may have touched.
    pub fn touched(&self) -> &[ThreadPlace]
        ensures { result.now ≡ touched_of self.now }
    {
        &self.touched
    }
}
