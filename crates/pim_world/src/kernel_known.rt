//! What is known of the kernel, and how it changes.

ghost use Rattle.std.specs.Prelude.{◌≡◌, ℕ, IfOk, None, true, false, is_some, length, unwrap_or};
ghost use Rattle.pim_base.specs.Lists.{nth};
ghost use Rattle.pim_world.specs.Worlds.{no_kernel, last_cpu, is_on};
ghost use Rattle.pim_world.specs.After.{more_kernel, put_on, put_off, forgotten, with_runs};
ghost use Rattle.pim_world.specs.Held.{kernel_of};

use crate::kernel::{KernelEvents, Off};
use pim_fact_lines::{CpuNo, Level};
use pim_waits::{ThreadPlace, nth, put};
use std::alloc::{AllocError, Global};
use std::collections::HashMap;

impl KernelEvents {
    /// Returns that nothing is known, of no thread.
    pub(crate) fn new(alloc: Global) -> KernelEvents
        ensures { kernel_of result ≡ no_kernel }
    {
        KernelEvents {
            runs: Vec::new(alloc),
            cpus: Vec::new(alloc),
            off: Vec::new(alloc),
            on: HashMap::new(alloc),
            is_run: false,
        }
    }

    /// Returns the thread that is on a CPU, or `None` if none is, as far as is known.
    pub fn on(&self, cpu: CpuNo) -> Option<ThreadPlace>
        ensures { result ≡ (kernel_of self.now).on cpu }
    {
        self.on.get(&cpu.0).copied()
    }

    /// Returns the CPU where a thread was last, or `None` if that isn't known.
    pub fn last_cpu(&self, thread: ThreadPlace) -> Option<CpuNo>
        ensures { result ≡ last_cpu (kernel_of self.now) thread }
    {
        nth(&self.cpus, thread.0)?
    }

    /// Returns the level at which the kernel runs a thread, or `None` if that isn't known.
    pub fn runs(&self, thread: ThreadPlace) -> Option<Level>
        ensures { result ≡ unwrap_or (nth (kernel_of self.now).runs thread) None }
    {
        nth(&self.runs, thread.0)?
    }

    /// Returns `false` only if the level at which the kernel runs a thread is known of none.
    pub fn is_run(&self) -> bool
        ensures { result ≡ false
            → (t : ℕ) → unwrap_or (nth (kernel_of self.now).runs t) None ≡ None }
    {
        self.is_run
    }

    /// Returns `true` only if no thread is on a CPU, as far as is known.
    pub fn is_idle(&self) -> bool
        ensures { result ≡ true → (cpu : ℕ) → (kernel_of self.now).on cpu ≡ None }
    {
        self.on.len() == 0
    }

    /// Returns how a thread is off a CPU, or `None` if it isn't, as far as is known.
    pub fn off(&self, thread: ThreadPlace) -> Option<Off>
        ensures { result ≡ unwrap_or (nth (kernel_of self.now).off thread) None }
    {
        nth(&self.off, thread.0)?
    }

    /// Returns whether a thread is on a CPU, as far as is known.
    pub fn is_on(&self, thread: ThreadPlace) -> bool
        ensures { result ≡ is_on (kernel_of self.now) thread }
    {
        let Some(cpu) = self.last_cpu(thread) else {
            return false;
        };
        match self.on(cpu) {
            Some(there) => there.0 == thread.0,
            None => false,
        }
    }

    /// Returns whether a thread is off a CPU, as far as is known.
    pub fn is_off(&self, thread: ThreadPlace) -> bool
        ensures { result ≡ is_some (unwrap_or (nth (kernel_of self.now).off thread) None) }
    {
        match nth(&self.off, thread.0) {
            Some(off) => off.is_some(),
            None => false,
        }
    }

    /// Returns how many threads there are.
    pub fn thread_count(&self) -> usize
        ensures { result ≡ length (kernel_of self.now).off }
    {
        self.off.len()
    }

    /// Adds a thread, of which nothing is known.
    ///
    /// # Errors
    ///
    /// Returns `AllocError` if out of memory.
    pub(crate) fn add_thread(&mut self) -> Result<(), AllocError>
        ensures { IfOk result (λ _. kernel_of self.new ≡ more_kernel (kernel_of self.old)) }
    {
        if self.runs.push(None).is_err() {
            return Err(AllocError);
        }
        if self.cpus.push(None).is_err() {
            return Err(AllocError);
        }
        match self.off.push(None) {
            Ok(()) => Ok(()),
            Err(_) => Err(AllocError),
        }
    }

    /// The kernel runs a thread at this level.
    pub(crate) fn run(&mut self, thread: ThreadPlace, level: Level)
        ensures { kernel_of self.new ≡ with_runs (kernel_of self.old) thread level }
    {
        self.is_run = true;
        put(&mut self.runs, thread.0, Some(level));
    }

    /// Puts a thread on a CPU.
    ///
    /// # Errors
    ///
    /// Returns `AllocError` if out of memory.
    pub(crate) fn put_on(&mut self, thread: ThreadPlace, cpu: CpuNo) -> Result<(), AllocError>
        ensures { IfOk result (λ _. kernel_of self.new ≡ put_on (kernel_of self.old) thread cpu) }
    {
        put(&mut self.cpus, thread.0, Some(cpu));
        put(&mut self.off, thread.0, None);
        match self.on.insert(cpu.0, thread) {
            Ok(_) => Ok(()),
            Err(_) => Err(AllocError),
        }
    }

    /// Takes a thread off its CPU, if it is on one.
    pub(crate) fn put_off(&mut self, thread: ThreadPlace, off: Off)
        ensures { kernel_of self.new ≡ put_off (kernel_of self.old) thread off }
    {
        if self.is_on(thread) {
            if let Some(cpu) = self.last_cpu(thread) {
                self.on.remove(&cpu.0);
            }
        }
        put(&mut self.off, thread.0, Some(off));
    }

    /// Forgets all of it.
    pub(crate) fn forget(&mut self, alloc: Global)
        ensures { kernel_of self.new ≡ forgotten (kernel_of self.old) }
    {
        self.runs.fill(None);
        self.is_run = false;
        self.cpus.fill(None);
        self.off.fill(None);
        self.on = HashMap::new(alloc);
    }
}
