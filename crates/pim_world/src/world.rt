//! What happened by the lines so far.

ghost use Rattle.std.specs.Prelude.{nat_eq};
ghost use Rattle.std.specs.HashMap.{get};
ghost use Rattle.pim_world.specs.Known.{AreTasks, AreMutexes, AreInOrder};

use crate::kernel::KernelEvents;
use pim_fact_lines::{MutexNo, ObjectNo, ThreadNo};
use pim_waits::{MutexPlace, ThreadPlace, Waits};
use std::collections::HashMap;

/// How many threads a text may have.
pub const MAX_THREADS: usize = 65_536;

/// What happened by the lines so far.
#[derive(Drop)]
pub struct World {
    /// By number the places of threads and mutexes.
    pub(crate) threads: HashMap<u32, ThreadPlace>,
    pub(crate) mutexes: HashMap<u64, MutexPlace>,
    /// The threads and mutexes from 1 to these numbers have their numbers as places.
    pub(crate) threads_in_order: usize,
    pub(crate) mutexes_in_order: usize,
    /// The numbers of the objects.
    pub(crate) objects: HashMap<u64, ()>,
    /// The numbers of threads and mutexes, by place.
    pub(crate) thread_numbers: Vec<ThreadNo>,
    pub(crate) mutex_numbers: Vec<MutexNo>,
    pub(crate) waits: Waits,
    /// By mutex whether its owner may lock it again.
    pub(crate) recursive: Vec<bool>,
    /// By thread the object at which it is blocked.
    pub(crate) blocked: Vec<Option<ObjectNo>>,
    pub(crate) kernel: KernelEvents,
    /// The greatest time so far, in nanoseconds.
    pub(crate) clock: u64,
    pub(crate) has_ended: bool,
    /// The threads that the last line may have touched.
    pub(crate) touched: Vec<ThreadPlace>,
    ghost threads_known: { AreTasks waits (get nat_eq threads) },
    ghost mutexes_known: { AreMutexes waits (get nat_eq mutexes) },
    ghost threads_ordered: { AreInOrder threads_in_order (get nat_eq threads) },
    ghost mutexes_ordered: { AreInOrder mutexes_in_order (get nat_eq mutexes) },
}
