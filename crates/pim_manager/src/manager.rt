//! The manager of mutexes: how it is made, what it shows, and its step.
#![tactic(auto, using(crate::proofs::Shown::shown))]

ghost use Rattle.std.specs.Prelude.{◌≡◌, ◌≤◌, ◌<◌, ◌+◌, ◌*◌, ◌↔◌, length, AllPairs, IfOk, IfErr, IfSome, IsErrOf, IsTrue, Some, None, ℕ};
ghost use Rattle.std.specs.Option.{option_map, option_copied};
ghost use Rattle.pim_base.specs.State.{IsTask, start, base_of, protocol_of, owner_of, count_of, wait_of, with_owner, with_protocol};
ghost use Rattle.pim_base.specs.Chains.{HasCycle};
ghost use Rattle.pim_base.specs.Queues.{Precedes, queue_of};
ghost use Rattle.pim_base.specs.Priorities.{effective_priority};
ghost use Rattle.pim_base.specs.Reasons.{reason_of};
ghost use Rattle.pim_base.specs.Steady.{IsSteady, IsCountOf};
ghost use Rattle.pim_base.specs.Counts.{changed_task_count, handed_mutex_count};
ghost use Rattle.pim_base.specs.Steps.{reply_of, after};
ghost use Rattle.pim_base.specs.declared.limits.TheConstants.{MAX_TASKS, MAX_MUTEXES};
ghost use Rattle.pim_base.specs.declared.steps.Wait.{Wait};
ghost use Rattle.pim_manager.specs.Adopting.{adopt_fault};
ghost use Rattle.pim_manager.specs.Changed.{changed_prio, changed_task};
ghost use Rattle.pim_manager.specs.Kernel.{kernel_reply, after_kernel, IsBystander, IsAnsweredAlike, IsForOwned};
ghost use Rattle.pim_manager.specs.Known.{of_task, of_mutex};
ghost use Rattle.pim_manager.specs.Protocols.{protocol_refusal};
ghost use Rattle.pim_manager.specs.Released.{releasable};
ghost use Rattle.pim_sets.specs.Numbers.{members};

use crate::adopt_fault::AdoptFault;
use crate::changed_prios::ChangedPrio;
use crate::changed_tasks::ChangedTask;
use crate::done::Done;
use crate::kernel_op::KernelOp;
use crate::make_fault::MakeFault;
use pim_base::{
    MAX_MUTEXES, MAX_TASKS, MutexNo, Prio, Protocol, Reason, Refusal, Step, TaskNo, Waiter,
};
use pim_chain::{Tables, Visits};
use pim_sets::NumberSet;
use std::alloc::{AllocError, Global};
use std::marker::Model;

/// The owners, the waiters and the priorities in force.
///
/// Its value in contracts is the state of the definitions: what is declared, owned and waited for, and the next
/// ticket. So equal managers give equal replies and stay equal. Between two calls each stored priority is the
/// effective one, each queue is in order, and the state is steady: there is no cycle of waits, each waiting task has
/// a ticket of its own that is below the next one, no free mutex has waiters, and the count of each mutex fits its
/// owner.
#[derive(Drop)]
pub struct Manager {
    pub(crate) tables: Tables,
}

impl Model for Manager {
    ghost use Rattle.pim_base.specs.State.{State};
    ghost use Rattle.pim_manager.specs.Settled.{IsSettled};

    ghost Value = { State };

    ghost view = { λ m. m.tables.state };

    ghost invariant = { λ m. IsSettled m.tables };
}

impl Manager {
    /// Returns a manager of tasks with these base priorities and of mutexes with these protocols. All mutexes are
    /// free, no task waits, and the next ticket is 1.
    ///
    /// # Errors
    ///
    /// Returns `TooManyTasks` above `MAX_TASKS`, else `TooManyMutexes` above `MAX_MUTEXES`, else `Memory` if out of
    /// memory.
    pub fn new(alloc: Global, bases: &[Prio], protocols: &[Protocol]) -> Result<Manager, MakeFault>
        ensures made { IfOk result (λ manager. manager ≡ start bases.now protocols.now 1) }
        ensures tasks { IsErrOf result MakeFault.TooManyTasks ↔ (MAX_TASKS < length bases.now) }
        ensures mutexes { IsErrOf result MakeFault.TooManyMutexes ↔ ((length bases.now ≤ MAX_TASKS) × (MAX_MUTEXES < length protocols.now)) }
    {
        Manager::with_next_ticket(alloc, bases, protocols, 1)
    }

    /// Returns a manager as `new` does, but with this next ticket, which must be at least 1. Above `LAST_TICKET` no
    /// ticket is left.
    ///
    /// # Errors
    ///
    /// Returns the errors of `new`.
    pub fn with_next_ticket(
        alloc: Global,
        bases: &[Prio],
        protocols: &[Protocol],
        next: u64,
    ) -> Result<Manager, MakeFault>
        requires { 1 ≤ next }
        ensures made { IfOk result (λ manager. manager ≡ start bases.now protocols.now next) }
        ensures tasks { IsErrOf result MakeFault.TooManyTasks ↔ (MAX_TASKS < length bases.now) }
        ensures mutexes { IsErrOf result MakeFault.TooManyMutexes ↔ ((length bases.now ≤ MAX_TASKS) × (MAX_MUTEXES < length protocols.now)) }
    {
        if MAX_TASKS < bases.len() {
            return Err(MakeFault::TooManyTasks);
        }
        if MAX_MUTEXES < protocols.len() {
            return Err(MakeFault::TooManyMutexes);
        }
        let mut tables = Tables::new(alloc, bases, protocols)?;
        tables.put_next_ticket(next);
        Ok(Manager { tables })
    }

    /// Returns an equal manager.
    ///
    /// # Errors
    ///
    /// Returns `AllocError` if out of memory.
    pub fn try_clone(&self, alloc: Global) -> Result<Manager, AllocError>
        ensures { IfOk result (λ manager. manager ≡ self.now) }
    {
        let tables = self.tables.try_clone(alloc)?;
        Ok(Manager { tables })
    }

    /// Returns whether the other manager has the same bases, protocols, owners, counts, waits with their tickets, and
    /// next ticket. Reads each task and each mutex at most once.
    pub fn has_state_of(&self, other: &Manager) -> bool
        ensures { IsTrue result ↔ self.now ≡ other.now }
    {
        self.tables.has_state_of(&other.tables)
    }

    /// Returns how many tasks there are, at most `MAX_TASKS`. They have the numbers from 1 on.
    pub fn tasks(&self) -> u16
        ensures count { result ≡ length self.now.base }
        ensures few { result ≤ MAX_TASKS }
        ensures steady { IsSteady self.now }
    {
        self.tables.tasks()
    }

    /// Returns how many mutexes there are, at most `MAX_MUTEXES`. They have the numbers from 1 on.
    pub fn mutexes(&self) -> u16
        ensures count { result ≡ length self.now.protocol }
        ensures few { result ≤ MAX_MUTEXES }
    {
        self.tables.mutexes()
    }

    /// Returns the ticket that the next waiter gets. Above `LAST_TICKET` none is left.
    pub fn next_ticket(&self) -> u64
        ensures { result ≡ self.now.next }
    {
        self.tables.next_ticket()
    }

    /// Returns the priority at which the task would execute, `None` for an unknown one.
    pub fn effective(&self, task: TaskNo) -> Option<Prio>
        ensures { result ≡ of_task self.now task (effective_priority self.now task) }
    {
        self.tables.stored(task)
    }

    /// Returns the base priority of the task, `None` for an unknown one.
    pub fn base(&self, task: TaskNo) -> Option<Prio>
        ensures { result ≡ of_task self.now task (base_of self.now task) }
    {
        self.tables.base(task)
    }

    /// Returns why the task has its effective priority, `None` for an unknown one. Reads the mutexes that the task
    /// owns.
    pub fn reason(&self, task: TaskNo) -> Option<Reason>
        ensures { result ≡ of_task self.now task (reason_of self.now task) }
    {
        if self.tables.is_unknown_task(task) {
            None
        } else {
            Some(self.tables.reason(task))
        }
    }

    /// Returns the mutex that the task waits for, `Some(None)` if it doesn't wait, and `None` for an unknown task.
    pub fn waits_for(&self, task: TaskNo) -> Option<Option<MutexNo>>
        ensures waits { result ≡ of_task self.now task (option_map (λ (w : Wait). w.mutex) (wait_of self.now task)) }
        ensures no_cycle { ¬ HasCycle self.now }
    {
        if self.tables.is_unknown_task(task) {
            None
        } else {
            Some(self.tables.waits_for(task).map(|wait| wait.mutex))
        }
    }

    /// Returns the owner of the mutex, `Some(None)` if it is free, and `None` for an unknown mutex.
    pub fn owner(&self, mutex: MutexNo) -> Option<Option<TaskNo>>
        ensures { result ≡ of_mutex self.now mutex (owner_of self.now mutex) }
    {
        if self.tables.is_unknown_mutex(mutex) {
            None
        } else {
            Some(self.tables.owner(mutex))
        }
    }

    /// Returns how often its owner has locked the mutex and not yet unlocked it, `None` for an unknown one. It is 0
    /// if the mutex is free, 1 if it is owned and not recursive, else 1 to `MAX_COUNT`.
    pub fn count(&self, mutex: MutexNo) -> Option<u16>
        ensures count { result ≡ of_mutex self.now mutex (count_of self.now mutex) }
        ensures fits { IfSome result (IsCountOf (protocol_of self.now mutex) (owner_of self.now mutex)) }
    {
        // The contract of this call gives the proof that the state is steady.
        let _steady = self.tasks();
        self.tables.count(mutex)
    }

    /// Returns the protocol of the mutex, `None` for an unknown one.
    pub fn protocol(&self, mutex: MutexNo) -> Option<Protocol>
        ensures { result ≡ of_mutex self.now mutex (protocol_of self.now mutex) }
    {
        self.tables.protocol(mutex)
    }

    /// Returns the waiters for the mutex, each with its effective priority and its ticket: the higher priority first,
    /// then the smaller ticket. Returns `None` for an unknown mutex.
    pub fn waiters(&self, mutex: MutexNo) -> Option<&[Waiter]>
        ensures queue { option_copied result ≡ of_mutex self.now mutex (queue_of self.now mutex) }
        ensures in_order { IfSome (option_copied result) (AllPairs Precedes) }
    {
        match self.tables.queue(mutex) {
            Some(queue) => Some(queue.as_slice()),
            None => None,
        }
    }

    /// Makes one step, and always returns a reply. A refused step changes nothing, and steps never allocate.
    ///
    /// The visits count the priorities that were computed. There are at least as many as tasks whose effective
    /// priority differs then, and at most one more and two for each mutex whose owner differs. The other work is
    /// bounded, too: a visit reads each mutex of its task once, a task whose priority is stored or that joins or
    /// leaves a queue shifts at most the waiters of that queue, one that joins a queue without room looks at each queue
    /// twice at most and copies the waiters of two, and the deadlock test makes at most as many hops as there are tasks.
    pub fn step(&mut self, step: Step) -> Done
        ensures reply { result.reply ≡ reply_of self.old step }
        ensures state { self.new ≡ after self.old step }
        ensures least { changed_task_count self.old self.new ≤ result.visits }
        ensures most { result.visits ≤ 1 + changed_task_count self.old self.new + 2 * handed_mutex_count self.old self.new }
    {
        let mut visits = Visits::new();
        let reply = self.reply_to(step, &mut visits);
        Done {
            reply,
            visits: visits.get(),
        }
    }

    /// Makes a step that the kernel asks for itself, and always returns a reply. A refused one changes nothing.
    ///
    /// It does what the step of a task does that doesn't wait, nor owns the mutex whose ceiling is set. So the ceiling
    /// of an owned mutex stays.
    pub fn kernel_step(&mut self, op: KernelOp) -> Done
        ensures reply { result.reply ≡ kernel_reply self.old op }
        ensures state { self.new ≡ after_kernel self.old op }
        ensures alike { (task : ℕ) → IsBystander self.old task op → IsAnsweredAlike self.old task op }
        ensures owned { IsForOwned self.old op → self.new ≡ self.old }
        ensures least { changed_task_count self.old self.new ≤ result.visits }
        ensures most { result.visits ≤ 1 + changed_task_count self.old self.new }
    {
        // The contract of this call gives the proof that owners are tasks.
        let _tasks = self.tables.tasks();
        let mut visits = Visits::new();
        let reply = self.reply_to_kernel(op, &mut visits);
        let visits = visits.get();
        Done { reply, visits }
    }

    /// Gives a free mutex this protocol, as where a mutex is destroyed and another one is initialized in its place.
    /// Nothing else changes, and no effective priority does. It is no step: a trace has no line for it.
    ///
    /// It takes constant time, and never allocates.
    ///
    /// # Errors
    ///
    /// Returns `NoMutex` if the mutex is unknown, and `Busy` if a task owns it. Nothing changes then. (POSIX.1-2017,
    /// `pthread_mutex_destroy`: EINVAL and EBUSY)
    pub fn set_protocol(&mut self, mutex: MutexNo, protocol: Protocol) -> Result<(), Refusal>
        ensures set { IfOk result (λ _. (protocol_refusal self.old mutex ≡ None) × (self.new ≡ with_protocol self.old mutex protocol)) }
        ensures refused { IfErr result (λ refusal. (protocol_refusal self.old mutex ≡ Some refusal) × (self.new ≡ self.old)) }
        ensures priorities { (task : ℕ) → effective_priority self.new task ≡ effective_priority self.old task }
    {
        if self.tables.is_unknown_mutex(mutex) {
            return Err(Refusal::NoMutex);
        }
        if self.tables.known_owner(mutex).is_some() {
            return Err(Refusal::Busy);
        }
        self.tables.put_protocol(mutex, protocol);
        Ok(())
    }

    /// Makes the task the owner of a free NONE or INHERIT mutex, with the count 1, even while the task waits: as where
    /// it has owned the mutex since before the manager had to know of it. Nothing else changes: no effective priority
    /// does, and no queue. It is no step: a trace has no line for it.
    ///
    /// It takes constant time, and never allocates.
    ///
    /// # Errors
    ///
    /// Returns `NoTask` or `NoMutex` if the task or the mutex is unknown, `Protect` if the mutex has a ceiling, and `Busy`
    /// if a task owns it, in this order. Nothing changes then.
    pub fn adopt(&mut self, task: TaskNo, mutex: MutexNo) -> Result<(), AdoptFault>
        ensures adopted { IfOk result (λ _. (adopt_fault self.old task mutex ≡ None) × (self.new ≡ with_owner self.old mutex (Some task))) }
        ensures refused { IfErr result (λ fault. (adopt_fault self.old task mutex ≡ Some fault) × (self.new ≡ self.old)) }
        ensures priorities { (t : ℕ) → effective_priority self.new t ≡ effective_priority self.old t }
        ensures queues { (m : ℕ) → queue_of self.new m ≡ queue_of self.old m }
        ensures no_cycle { ¬ HasCycle self.new }
    {
        // The contract of this call gives the proof that there is no cycle of waits.
        let _steady = self.tasks();
        if self.tables.is_unknown_task(task) {
            return Err(AdoptFault::NoTask);
        }
        if self.tables.is_unknown_mutex(mutex) {
            return Err(AdoptFault::NoMutex);
        }
        if self.tables.known_protocol(mutex).ceiling().is_some() {
            return Err(AdoptFault::Protect);
        }
        let owner = self.tables.known_owner(mutex);
        if owner.is_some() {
            return Err(AdoptFault::Busy);
        }
        self.tables.adopt(mutex, task);
        Ok(())
    }

    /// Returns the owner of the mutex, `None` if it is free or unknown.
    pub(crate) fn owner_of(&self, mutex: MutexNo) -> Option<TaskNo>
        ensures { result ≡ owner_of self.now mutex }
    {
        self.tables.owner(mutex)
    }

    /// Returns the set of the mutexes that the task releases if it releases all: it is empty if the task is unknown or
    /// waits.
    #[tactic(auto, using(pim_sets::proofs::Members::members_empty))]
    pub(crate) fn releasable(&self, task: TaskNo) -> NumberSet
        ensures { members result.words ≡ releasable self.now task }
    {
        if self.tables.is_unknown_task(task) || self.tables.known_wait(task).is_some() {
            return NumberSet::new();
        }
        self.tables.owned_set(task)
    }

    /// Returns the task with its effective priority.
    pub(crate) fn changed_prio(&self, task: TaskNo) -> ChangedPrio
        requires { IsTask self.now task }
        ensures { result ≡ changed_prio (changed_task self.now task) }
    {
        ChangedPrio {
            task,
            prio: self.tables.known_stored(task),
        }
    }

    /// Returns the task with its effective priority and the reason. Reads the mutexes that the task owns.
    pub(crate) fn changed_task(&self, task: TaskNo) -> ChangedTask
        requires { IsTask self.now task }
        ensures { result ≡ changed_task self.now task }
    {
        let prio = self.tables.known_stored(task);
        let reason = self.tables.reason(task);
        ChangedTask { task, prio, reason }
    }
}
