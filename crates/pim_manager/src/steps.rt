//! The steps: the reply to each, and what it changes.
#![tactic(auto, using(crate::proofs::Requests::requests))]

ghost use Rattle.std.specs.Prelude.{◌≡◌, ◌≤◌, ◌+◌, ◌*◌, None, true, false};
ghost use Rattle.pim_base.specs.State.{IsTask, owner_of, wait_of, relocks};
ghost use Rattle.pim_base.specs.Checks.{unknown_mutex};
ghost use Rattle.pim_base.specs.Counts.{changed_task_count, handed_mutex_count};
ghost use Rattle.pim_base.specs.Steps.{answer, after_reply, reply_of, after};
ghost use Rattle.pim_sets.specs.Work.{Work};
ghost use Rattle.pim_manager.specs.Kernel.{kernel_reply, after_kernel};
ghost use Rattle.pim_manager.specs.Relocks.{relocked};
ghost use Rattle.pim_manager.specs.Settled.{Worked};

use crate::kernel_op::KernelOp;
use crate::manager::Manager;
use pim_base::{LAST_TICKET, MAX_COUNT, MutexNo, Op, Prio, Refusal, Reply, Step, TaskNo};
use pim_chain::Visits;

/// Stands for the kernel where a task asks otherwise: no task has this number.
const NOBODY: TaskNo = TaskNo(0);

impl Manager {
    /// Makes the step, counts its visits from 0, and returns the reply.
    #[inline(always)]
    pub(crate) fn reply_to(&mut self, step: Step, visits: &mut Visits) -> Reply
        requires { visits.old.count ≡ 0 }
        ensures reply { result ≡ reply_of self.old step }
        ensures state { self.new ≡ after self.old step }
        ensures work { Worked self.old visits.old self.new visits.new }
        ensures most { visits.new.count ≤ 1 + changed_task_count self.old self.new + 2 * handed_mutex_count self.old self.new }
    {
        let Step { actor, op } = step;
        if self.tables.is_unknown_task(actor) {
            return Reply::Refused(Refusal::NoTask);
        }
        if self.tables.known_wait(actor).is_some() && !op.withdraws(actor) {
            return Reply::Refused(Refusal::Waiting);
        }
        match op {
            Op::Lock(mutex) => self.answer_lock(actor, mutex, visits),
            Op::Try(mutex) => self.answer_try(actor, mutex, visits),
            Op::Unlock(mutex) => self.answer_unlock(actor, mutex, visits),
            Op::ReleaseAll => self.answer_release_all(actor, visits),
            Op::Cancel(task) => self.answer_cancel(actor, task, visits),
            Op::SetBase(task, level) => self.answer_set_base(actor, task, level, visits),
            Op::SetCeiling(mutex, level) => self.answer_set_ceiling(actor, mutex, level, visits),
        }
    }

    /// Makes the kernel's step, counts its visits from 0, and returns the reply.
    #[inline(always)]
    pub(crate) fn reply_to_kernel(&mut self, op: KernelOp, visits: &mut Visits) -> Reply
        requires { visits.old.count ≡ 0 }
        ensures reply { result ≡ kernel_reply self.old op }
        ensures state { self.new ≡ after_kernel self.old op }
        ensures work { Worked self.old visits.old self.new visits.new }
        ensures most { visits.new.count ≤ 1 + changed_task_count self.old self.new }
    {
        match op {
            KernelOp::Cancel(task) => self.answer_cancel(NOBODY, task, visits),
            KernelOp::SetBase(task, level) => self.answer_set_base(NOBODY, task, level, visits),
            KernelOp::SetCeiling(mutex, level) => {
                self.answer_set_ceiling(NOBODY, mutex, level, visits)
            }
        }
    }

    /// Answers a lock by a known task that doesn't wait: the mutex is granted if it is free, or once more to its
    /// owner if it is recursive, else the actor queues for it. The deadlock test makes at most as many hops as there
    /// are tasks.
    #[inline(always)]
    fn answer_lock(&mut self, actor: TaskNo, mutex: MutexNo, visits: &mut Visits) -> Reply
        requires known { IsTask self.old actor }
        requires idle { wait_of self.old actor ≡ None }
        requires fresh { visits.old.count ≡ 0 }
        ensures reply { result ≡ answer self.old actor (Op.Lock mutex) }
        ensures state { self.new ≡ after_reply self.old actor (Op.Lock mutex) result }
        ensures work { Worked self.old visits.old self.new visits.new }
        ensures most { visits.new.count ≤ 1 + changed_task_count self.old self.new }
    {
        if self.tables.is_unknown_mutex(mutex) {
            return Reply::Refused(Refusal::NoMutex);
        }
        let Some(owner) = self.tables.known_owner(mutex) else {
            return self.answer_free(actor, mutex, visits);
        };
        if self.tables.known_relocks(actor, mutex, owner) {
            return self.answer_relock(actor, mutex);
        }
        if self.tables.known_on_chain(owner, actor) {
            return Reply::Refused(Refusal::Deadlock);
        }
        if self.tables.known_above_ceiling(actor, mutex) {
            return Reply::Refused(Refusal::Ceiling);
        }
        let ticket = self.tables.next_ticket();
        if ticket > LAST_TICKET {
            return Reply::Refused(Refusal::Tickets);
        }
        self.tables.put_next_ticket(ticket + 1);
        self.tables.enqueue(actor, mutex, owner, ticket, visits);
        Reply::Queued
    }

    /// Answers a try by a known task that doesn't wait: the mutex is granted if it is free, or once more to its owner
    /// if it is recursive.
    #[inline(always)]
    fn answer_try(&mut self, actor: TaskNo, mutex: MutexNo, visits: &mut Visits) -> Reply
        requires known { IsTask self.old actor }
        requires idle { wait_of self.old actor ≡ None }
        requires fresh { visits.old.count ≡ 0 }
        ensures reply { result ≡ answer self.old actor (Op.Try mutex) }
        ensures state { self.new ≡ after_reply self.old actor (Op.Try mutex) result }
        ensures work { Worked self.old visits.old self.new visits.new }
        ensures most { visits.new.count ≤ 1 + changed_task_count self.old self.new }
    {
        if self.tables.is_unknown_mutex(mutex) {
            return Reply::Refused(Refusal::NoMutex);
        }
        let Some(owner) = self.tables.known_owner(mutex) else {
            return self.answer_free(actor, mutex, visits);
        };
        if self.tables.known_relocks(actor, mutex, owner) {
            return self.answer_relock(actor, mutex);
        }
        if self.tables.known_above_ceiling(actor, mutex) {
            return Reply::Refused(Refusal::Ceiling);
        }
        Reply::Refused(Refusal::Busy)
    }

    /// Answers a lock or a try of a free mutex by a known task that doesn't wait: the mutex is granted, unless the
    /// actor's base is above its ceiling.
    #[inline(always)]
    fn answer_free(&mut self, actor: TaskNo, mutex: MutexNo, visits: &mut Visits) -> Reply
        requires known { IsTask self.old actor }
        requires idle { wait_of self.old actor ≡ None }
        requires mutex { unknown_mutex self.old mutex ≡ false }
        requires free { owner_of self.old mutex ≡ None }
        requires fresh { visits.old.count ≡ 0 }
        ensures lock { result ≡ answer self.old actor (Op.Lock mutex) }
        ensures tried { result ≡ answer self.old actor (Op.Try mutex) }
        ensures state { self.new ≡ after_reply self.old actor (Op.Lock mutex) result }
        ensures work { Worked self.old visits.old self.new visits.new }
        ensures most { visits.new.count ≤ 1 }
    {
        if self.tables.known_above_ceiling(actor, mutex) {
            return Reply::Refused(Refusal::Ceiling);
        }
        if self.tables.known_protocol(mutex).ceiling().is_none() {
            // Nobody waits for a free mutex, so it gives no priority without a ceiling.
            self.tables.adopt(mutex, actor);
            return Reply::Granted;
        }
        self.tables.grant(mutex, actor, visits);
        Reply::Granted
    }

    /// Answers a lock or a try of a recursive mutex by its owner: the mutex is locked once more, unless its count is
    /// `MAX_COUNT`.
    fn answer_relock(&mut self, actor: TaskNo, mutex: MutexNo) -> Reply
        requires { relocks self.old actor mutex ≡ true }
        ensures reply { result ≡ relocked self.old mutex }
        ensures state { self.new ≡ after_reply self.old actor (Op.Lock mutex) result }
        ensures work { (a : Work) → Worked self.old a self.new a }
    {
        if self.tables.count_of(mutex) == MAX_COUNT {
            return Reply::Refused(Refusal::Again);
        }
        self.tables.count_up(mutex);
        Reply::Granted
    }

    /// Answers an unlock by a task that doesn't wait. The task keeps a mutex that it has locked more than once. Else
    /// the mutex goes to the first waiter, or is free.
    #[inline(always)]
    fn answer_unlock(&mut self, actor: TaskNo, mutex: MutexNo, visits: &mut Visits) -> Reply
        requires idle { wait_of self.old actor ≡ None }
        requires fresh { visits.old.count ≡ 0 }
        ensures reply { result ≡ answer self.old actor (Op.Unlock mutex) }
        ensures state { self.new ≡ after_reply self.old actor (Op.Unlock mutex) result }
        ensures work { Worked self.old visits.old self.new visits.new }
        ensures most { visits.new.count ≤ 2 * handed_mutex_count self.old self.new }
    {
        if self.tables.is_unknown_mutex(mutex) {
            return Reply::Refused(Refusal::NoMutex);
        }
        if !self.tables.known_owns(actor, mutex) {
            return Reply::Refused(Refusal::NotOwner);
        }
        if self.tables.known_kept(mutex) {
            self.tables.count_down(mutex);
            return Reply::Kept;
        }
        match self.tables.hand_over(mutex, actor, visits) {
            Some(task) => Reply::Handed(task),
            None => Reply::Freed,
        }
    }

    /// Answers a release by a task that doesn't wait: all mutexes that it owns are handed over, in ascending order.
    /// Each new owner is visited at most once, and the actor once, at the end, if it owned a mutex.
    fn answer_release_all(&mut self, actor: TaskNo, visits: &mut Visits) -> Reply
        requires known { IsTask self.old actor }
        requires idle { wait_of self.old actor ≡ None }
        requires fresh { visits.old.count ≡ 0 }
        ensures reply { result ≡ answer self.old actor Op.ReleaseAll }
        ensures state { self.new ≡ after_reply self.old actor Op.ReleaseAll result }
        ensures work { Worked self.old visits.old self.new visits.new }
        ensures most { visits.new.count ≤ 1 + handed_mutex_count self.old self.new }
        ensures twice { visits.new.count ≤ 2 * handed_mutex_count self.old self.new }
    {
        Reply::Released(self.tables.release_all(actor, visits))
    }

    /// Answers the cancel of a wait: the task leaves the queue that it waits in.
    #[inline(always)]
    fn answer_cancel(&mut self, actor: TaskNo, task: TaskNo, visits: &mut Visits) -> Reply
        requires { visits.old.count ≡ 0 }
        ensures reply { result ≡ answer self.old actor (Op.Cancel task) }
        ensures state { self.new ≡ after_reply self.old actor (Op.Cancel task) result }
        ensures work { Worked self.old visits.old self.new visits.new }
        ensures most { visits.new.count ≤ 1 + changed_task_count self.old self.new }
    {
        if self.tables.is_unknown_task(task) {
            return Reply::Refused(Refusal::NoTask);
        }
        let Some(wait) = self.tables.known_wait(task) else {
            return Reply::Refused(Refusal::NotWaiting);
        };
        let Some(owner) = self.tables.owner(wait.mutex) else {
            unreachable!() // no free mutex has waiters
        };
        self.tables.withdraw(task, wait, owner, visits);
        Reply::Withdrawn
    }

    /// Answers the change of a base priority.
    #[inline(always)]
    fn answer_set_base(
        &mut self,
        actor: TaskNo,
        task: TaskNo,
        level: u16,
        visits: &mut Visits,
    ) -> Reply
        requires { visits.old.count ≡ 0 }
        ensures reply { result ≡ answer self.old actor (Op.SetBase task level) }
        ensures state { self.new ≡ after_reply self.old actor (Op.SetBase task level) result }
        ensures work { Worked self.old visits.old self.new visits.new }
        ensures most { visits.new.count ≤ 1 + changed_task_count self.old self.new }
    {
        if self.tables.is_unknown_task(task) {
            return Reply::Refused(Refusal::NoTask);
        }
        match Prio::new(level) {
            Some(prio) => {
                self.tables.put_base(task, prio);
                self.tables.settle_from(task, visits);
                Reply::Set
            }
            None => Reply::Refused(Refusal::Priority),
        }
    }

    /// Answers the change of a ceiling, which any task may request while the mutex is free, and else only its owner.
    #[inline(always)]
    fn answer_set_ceiling(
        &mut self,
        actor: TaskNo,
        mutex: MutexNo,
        level: u16,
        visits: &mut Visits,
    ) -> Reply
        requires { visits.old.count ≡ 0 }
        ensures reply { result ≡ answer self.old actor (Op.SetCeiling mutex level) }
        ensures state { self.new ≡ after_reply self.old actor (Op.SetCeiling mutex level) result }
        ensures work { Worked self.old visits.old self.new visits.new }
        ensures most { visits.new.count ≤ 1 + changed_task_count self.old self.new }
    {
        if self.tables.is_unknown_mutex(mutex) {
            return Reply::Refused(Refusal::NoMutex);
        }
        if self.tables.known_protocol(mutex).ceiling().is_none() {
            return Reply::Refused(Refusal::NotProtect);
        }
        let Some(ceiling) = Prio::new(level) else {
            return Reply::Refused(Refusal::Priority);
        };
        let owner = self.tables.known_owner(mutex);
        if owner.is_some() && owner != Some(actor) {
            return Reply::Refused(Refusal::Busy);
        }
        self.tables.put_ceiling(mutex, ceiling);
        let Some(owner) = owner else {
            return Reply::Set; // a free mutex gives no task a priority
        };
        self.tables.settle_from(owner, visits);
        Reply::Set
    }
}
