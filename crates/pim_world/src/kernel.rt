//! What the kernel did, by the lines so far.

ghost use Rattle.pim_world.specs.Known.{AreKnown};

use pim_fact_lines::{CpuNo, Level};
use pim_waits::ThreadPlace;
use std::collections::HashMap;

/// Whether a thread that is on no CPU could run.
#[derive(Clone, Copy)]
pub enum Off {
    /// It could: it was preempted, or woken.
    Ready,
    /// It couldn't.
    Asleep,
}

/// What the kernel did, as far as it is known.
#[derive(Drop)]
pub struct KernelEvents {
    /// By thread the level at which it is run.
    pub(crate) runs: Vec<Option<Level>>,
    /// By thread the CPU where it was last.
    pub(crate) cpus: Vec<Option<CpuNo>>,
    /// By thread how it is off a CPU.
    pub(crate) off: Vec<Option<Off>>,
    /// By CPU the thread that is on it.
    pub(crate) on: HashMap<u16, ThreadPlace>,
    /// Whether the level at which any thread is run may be known.
    pub(crate) is_run: bool,
    ghost known: { AreKnown is_run runs.items },
}
