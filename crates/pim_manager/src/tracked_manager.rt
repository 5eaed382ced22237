//! A manager that keeps which tasks its last step changed, and which mutexes it handed over.
#![tactic(auto, using(crate::proofs::Listing::unnoted, crate::proofs::Listing::unnoted_changed))]

ghost use Rattle.std.specs.Prelude.{◌≡◌, ◌↔◌, ◌<◌, ◌≤◌, ◌+◌, ◌*◌, [], length, map, IfOk, IfErr, IsErrOf, Some, None, ℕ};
ghost use Rattle.pim_base.specs.Counts.{changed_task_count, handed_mutex_count};
ghost use Rattle.pim_base.specs.Priorities.{effective_priority};
ghost use Rattle.pim_base.specs.Reports.{changed_tasks};
ghost use Rattle.pim_base.specs.State.{start, with_protocol};
ghost use Rattle.pim_base.specs.Steps.{reply_of, after};
ghost use Rattle.pim_base.specs.declared.limits.TheConstants.{MAX_MUTEXES, MAX_TASKS};
ghost use Rattle.pim_manager.specs.Adopting.{adopt_fault, with_adopted};
ghost use Rattle.pim_manager.specs.Changed.{changed_prio, listed, stepped};
ghost use Rattle.pim_manager.specs.Handed.{handed_mutexes};
ghost use Rattle.pim_manager.specs.Kernel.{kernel_reply, after_kernel, kernel_stepped};
ghost use Rattle.pim_manager.specs.Protocols.{protocol_refusal};

use crate::adopt_fault::AdoptFault;
use crate::changed_prios::ChangedPrios;
use crate::changed_tasks::ChangedTasks;
use crate::done::Done;
use crate::handed_mutexes::HandedMutexes;
use crate::kernel_op::KernelOp;
use crate::make_fault::MakeFault;
use crate::manager::Manager;
use crate::released::{Released, unlocked};
use pim_base::{MutexNo, Prio, Protocol, Refusal, Step, TaskNo};
use pim_chain::Visits;
use std::alloc::Global;
use std::marker::Model;

/// A manager, the tasks whose effective priority its last step changed, and the mutexes that it handed over.
///
/// A step notes each task whose priority it changes, and `changed` reads these notes. Only the constructors allocate.
///
/// ```text
/// let mut tracked = TrackedManager::new(alloc, &[low, high], &[Protocol::Inherit])?;
/// tracked.step(Step { actor: TaskNo(1), op: Op::Lock(MutexNo(1)) });
/// tracked.step(Step { actor: TaskNo(2), op: Op::Lock(MutexNo(1)) });
/// for changed in tracked.changed() {} // task 1, which is at high now: Reason::Waiter(TaskNo(2), MutexNo(1))
/// ```
#[derive(Drop)]
pub struct TrackedManager {
    manager: Manager,
    visits: Visits,
    released: Released,
}

impl Model for TrackedManager {
    ghost use Rattle.std.specs.Prelude.{◌≤◌, IsSome, length};
    ghost use Rattle.pim_base.specs.Priorities.{effective_priority};
    ghost use Rattle.std.specs.List.{filter_map};
    ghost use Rattle.pim_sets.specs.Work.{noted_tasks, AreChanged};
    ghost use Rattle.pim_manager.specs.Handed.{with_its_owner};
    ghost use Rattle.pim_manager.specs.Changed.{TrackedState, listed};

    ghost Value = { TrackedState };

    ghost view = { λ t. record { state = t.manager; changed = listed t.manager (noted_tasks t.visits); handed = filter_map (with_its_owner t.manager) t.released } };

    ghost invariant = { λ t. IsSome t.visits.notes × AreChanged (length t.manager.base) (effective_priority t.manager) t.visits
        × (length (filter_map (with_its_owner t.manager) t.released) ≤ length t.manager.protocol) };
}

impl TrackedManager {
    /// Returns a manager as [`Manager::new`] does, with no task listed as changed. It is on the heap, so that a move of
    /// it copies one pointer.
    ///
    /// # Errors
    ///
    /// Returns the errors of `Manager::new`.
    pub fn new(
        alloc: Global,
        bases: &[Prio],
        protocols: &[Protocol],
    ) -> Result<Box<TrackedManager>, MakeFault>
        ensures made { IfOk result (λ tracked. tracked.value ≡ record { state = start bases.now protocols.now 1; changed = []; handed = [] }) }
        ensures tasks { IsErrOf result MakeFault.TooManyTasks ↔ (MAX_TASKS < length bases.now) }
        ensures mutexes { IsErrOf result MakeFault.TooManyMutexes ↔ ((length bases.now ≤ MAX_TASKS) × (MAX_MUTEXES < length protocols.now)) }
    {
        TrackedManager::with_next_ticket(alloc, bases, protocols, 1)
    }

    /// Returns a manager as `new` does, but with this next ticket, which must be at least 1. Above `LAST_TICKET` no
    /// ticket is left.
    ///
    /// # Errors
    ///
    /// Returns the errors of `Manager::new`.
    pub fn with_next_ticket(
        alloc: Global,
        bases: &[Prio],
        protocols: &[Protocol],
        next: u64,
    ) -> Result<Box<TrackedManager>, MakeFault>
        requires { 1 ≤ next }
        ensures made { IfOk result (λ tracked. tracked.value ≡ record { state = start bases.now protocols.now next; changed = []; handed = [] }) }
        ensures tasks { IsErrOf result MakeFault.TooManyTasks ↔ (MAX_TASKS < length bases.now) }
        ensures mutexes { IsErrOf result MakeFault.TooManyMutexes ↔ ((length bases.now ≤ MAX_TASKS) × (MAX_MUTEXES < length protocols.now)) }
    {
        let manager = Manager::with_next_ticket(alloc, bases, protocols, next)?;
        let visits = Visits::with_notes(alloc)?;
        let released = Released::new();
        let tracked = TrackedManager {
            manager,
            visits,
            released,
        };
        match Box::new(alloc, tracked) {
            Ok(tracked) => Ok(tracked),
            Err(_) => Err(MakeFault::Memory),
        }
    }

    /// Returns the manager.
    pub fn manager(&self) -> &Manager
        ensures { result.now ≡ self.now.state }
    {
        &self.manager
    }

    /// Makes one step as [`Manager::step`] does. `changed` then returns the tasks whose effective priority it changed.
    // Inlined, as is `reply_to`: if the caller knows the kind of step, only the code of that kind is left.
    #[inline(always)]
    pub fn step(&mut self, step: Step) -> Done
        ensures reply { result.reply ≡ reply_of self.old.state step }
        ensures state { self.new ≡ stepped self.old step }
        ensures changed { self.new.changed ≡ listed self.new.state (changed_tasks self.old.state self.new.state) }
        ensures handed { self.new.handed ≡ handed_mutexes self.old.state self.new.state }
        ensures least { changed_task_count self.old.state (after self.old.state step) ≤ result.visits }
        ensures most { result.visits ≤ 1 + changed_task_count self.old.state (after self.old.state step)
            + 2 * handed_mutex_count self.old.state (after self.old.state step) }
        ensures few { result.visits ≤ 1 + MAX_TASKS + 2 * MAX_MUTEXES }
    {
        // The contracts of these calls give the proof the greatest numbers of tasks and mutexes.
        let (_tasks, _mutexes) = (self.manager.tasks(), self.manager.mutexes());
        self.visits.restart();
        let unlocked = unlocked(&step);
        self.released.restart(&self.manager, &step);
        let reply = self.manager.reply_to(step, &mut self.visits);
        self.released.note(unlocked, &reply);
        Done {
            reply,
            visits: self.visits.get(),
        }
    }

    /// Makes a step that the kernel asks for itself as [`Manager::kernel_step`] does. `changed` then returns the tasks
    /// whose effective priority it changed, and `handed` no mutex.
    #[inline(always)]
    pub fn kernel_step(&mut self, op: KernelOp) -> Done
        ensures reply { result.reply ≡ kernel_reply self.old.state op }
        ensures state { self.new ≡ kernel_stepped self.old op }
        ensures changed { self.new.changed ≡ listed self.new.state (changed_tasks self.old.state self.new.state) }
        ensures least { changed_task_count self.old.state (after_kernel self.old.state op) ≤ result.visits }
        ensures most { result.visits ≤ 1 + changed_task_count self.old.state (after_kernel self.old.state op) }
        ensures few { result.visits ≤ 1 + MAX_TASKS }
    {
        // The contract of this call gives the proof the greatest number of tasks.
        let _tasks = self.manager.tasks();
        self.visits.restart();
        self.released.clear();
        let reply = self.manager.reply_to_kernel(op, &mut self.visits);
        Done {
            reply,
            visits: self.visits.get(),
        }
    }

    /// Returns the tasks whose effective priority the last step changed, in ascending order, each as it is after the
    /// step. There are none before the first step, after a refused one, and once `set_protocol` or `adopt` has changed
    /// something.
    pub fn changed(&self) -> ChangedTasks<'_>
        ensures changed { result ≡ self.now.changed }
        ensures few { length result ≤ MAX_TASKS }
    {
        // The contract of this call gives the proof the greatest number of tasks.
        let _tasks = self.manager.tasks();
        ChangedTasks::new(&self.manager, &self.visits)
    }

    /// Returns how many tasks `changed` lists.
    pub fn changed_count(&self) -> u16
        ensures { result ≡ length self.now.changed }
    {
        self.visits.noted_count()
    }

    /// Returns the tasks that `changed` lists, in the same order, with their priorities and without the reasons. So it
    /// reads no mutex.
    pub fn changed_prios(&self) -> ChangedPrios<'_>
        ensures changed { result ≡ map changed_prio self.now.changed }
        ensures few { length result ≤ MAX_TASKS }
    {
        // The contract of this call gives the proof the greatest number of tasks.
        let _tasks = self.manager.tasks();
        ChangedPrios::new(&self.manager, &self.visits)
    }

    /// Returns the mutexes that the last step handed to waiters, in ascending order, with their new owners. There are
    /// none before the first step, after one that handed none over, and once `set_protocol` has set a protocol.
    pub fn handed(&self) -> HandedMutexes<'_>
        ensures handed { result ≡ self.now.handed }
        ensures few { length result ≤ MAX_MUTEXES }
    {
        // The contract of this call gives the proof the greatest number of mutexes.
        let _mutexes = self.manager.mutexes();
        HandedMutexes::new(&self.manager, &self.released)
    }

    /// Gives a free mutex this protocol as [`Manager::set_protocol`] does. No task is listed as changed then, and no mutex
    /// as handed over.
    ///
    /// # Errors
    ///
    /// Returns the errors of `Manager::set_protocol`. Nothing changes then, and the same tasks and mutexes are listed.
    pub fn set_protocol(&mut self, mutex: MutexNo, protocol: Protocol) -> Result<(), Refusal>
        ensures set { IfOk result (λ _. (protocol_refusal self.old.state mutex ≡ None)
            × (self.new ≡ record { state = with_protocol self.old.state mutex protocol; changed = []; handed = [] })) }
        ensures refused { IfErr result (λ refusal. (protocol_refusal self.old.state mutex ≡ Some refusal) × (self.new ≡ self.old)) }
        ensures priorities { (task : ℕ) → effective_priority self.new.state task ≡ effective_priority self.old.state task }
    {
        self.manager.set_protocol(mutex, protocol)?;
        self.visits.restart();
        self.released.clear();
        Ok(())
    }

    /// Makes the task the owner of a free mutex as [`Manager::adopt`] does. No task is listed as changed then, and no
    /// mutex as handed over.
    ///
    /// # Errors
    ///
    /// Returns the errors of `Manager::adopt`. Nothing changes then, and the same tasks and mutexes are listed.
    pub fn adopt(&mut self, task: TaskNo, mutex: MutexNo) -> Result<(), AdoptFault>
        ensures adopted { IfOk result (λ _. (adopt_fault self.old.state task mutex ≡ None) × (self.new ≡ with_adopted self.old task mutex)) }
        ensures refused { IfErr result (λ fault. (adopt_fault self.old.state task mutex ≡ Some fault) × (self.new ≡ self.old)) }
        ensures priorities { (t : ℕ) → effective_priority self.new.state t ≡ effective_priority self.old.state t }
    {
        self.manager.adopt(task, mutex)?;
        self.visits.restart();
        self.released.clear();
        Ok(())
    }
}
