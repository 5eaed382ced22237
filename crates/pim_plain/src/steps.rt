//! One step: its reply, and what it changes.

ghost use Rattle.std.specs.Prelude.{◌≡◌, IsFalse};
ghost use Rattle.pim_base.specs.Checks.{locked_too_often};
ghost use Rattle.pim_base.specs.Queues.{first_of};
ghost use Rattle.pim_base.specs.Steps.{answer, after_reply, granted, hand_over, reply_of, after};

use crate::plain_manager::PlainManager;
use pim_base::{LAST_TICKET, MutexNo, Op, Prio, Refusal, Reply, Step, TaskNo, Waiter};

impl PlainManager {
    /// Makes one step and returns its reply; a refused step changes nothing.
    ///
    /// The checks of each operation are in the order of the definition `checks`.
    pub fn step(&mut self, step: Step) -> Reply
        ensures reply { result ≡ reply_of self.old step }
        ensures state { self.new ≡ after self.old step }
    {
        let Step { actor, op } = step;
        if self.is_unknown_task(actor) {
            return Reply::Refused(Refusal::NoTask);
        }
        if self.is_waiting(actor) && !op.withdraws(actor) {
            return Reply::Refused(Refusal::Waiting);
        }
        match op {
            Op::Lock(mutex) => self.lock(actor, mutex),
            Op::Try(mutex) => self.try_lock(actor, mutex),
            Op::Unlock(mutex) => self.unlock(actor, mutex),
            Op::ReleaseAll => self.release_all(actor),
            Op::Cancel(task) => self.cancel(actor, task),
            Op::SetBase(task, level) => self.set_base(actor, task, level),
            Op::SetCeiling(mutex, level) => self.set_ceiling(actor, mutex, level),
        }
    }

    /// Gives the actor the mutex where the actor can have it now, else lets the actor wait for it.
    fn lock(&mut self, actor: TaskNo, mutex: MutexNo) -> Reply
        ensures reply { result ≡ answer self.old actor (Op.Lock mutex) }
        ensures state { self.new ≡ after_reply self.old actor (Op.Lock mutex) result }
    {
        if self.is_unknown_mutex(mutex) {
            return Reply::Refused(Refusal::NoMutex);
        }
        if self.is_locked_too_often(actor, mutex) {
            return Reply::Refused(Refusal::Again);
        }
        if self.closes_cycle(actor, mutex) {
            return Reply::Refused(Refusal::Deadlock);
        }
        if self.is_above_ceiling(actor, mutex) {
            return Reply::Refused(Refusal::Ceiling);
        }
        if !self.is_busy(actor, mutex) {
            self.grant(actor, mutex);
            return Reply::Granted;
        }
        if self.next_ticket() > LAST_TICKET {
            return Reply::Refused(Refusal::Tickets);
        }
        self.join(actor, mutex);
        Reply::Queued
    }

    /// Gives the actor the mutex where the actor can have it now.
    fn try_lock(&mut self, actor: TaskNo, mutex: MutexNo) -> Reply
        ensures reply { result ≡ answer self.old actor (Op.Try mutex) }
        ensures state { self.new ≡ after_reply self.old actor (Op.Try mutex) result }
    {
        if self.is_unknown_mutex(mutex) {
            return Reply::Refused(Refusal::NoMutex);
        }
        if self.is_locked_too_often(actor, mutex) {
            return Reply::Refused(Refusal::Again);
        }
        if self.is_above_ceiling(actor, mutex) {
            return Reply::Refused(Refusal::Ceiling);
        }
        if self.is_busy(actor, mutex) {
            return Reply::Refused(Refusal::Busy);
        }
        self.grant(actor, mutex);
        Reply::Granted
    }

    /// Hands the actor's mutex over, or lets the actor keep it, which has locked it more often.
    fn unlock(&mut self, actor: TaskNo, mutex: MutexNo) -> Reply
        ensures reply { result ≡ answer self.old actor (Op.Unlock mutex) }
        ensures state { self.new ≡ after_reply self.old actor (Op.Unlock mutex) result }
    {
        if self.is_unknown_mutex(mutex) {
            return Reply::Refused(Refusal::NoMutex);
        }
        if !self.owns(actor, mutex) {
            return Reply::Refused(Refusal::NotOwner);
        }
        if self.is_kept(mutex) {
            self.put_count(mutex, self.count_of(mutex) - 1);
            return Reply::Kept;
        }
        match self.hand_over(mutex) {
            Some(waiter) => Reply::Handed(waiter.task),
            None => Reply::Freed,
        }
    }

    /// Hands all mutexes of the actor over, in ascending order.
    fn release_all(&mut self, actor: TaskNo) -> Reply
        ensures reply { result ≡ answer self.old actor Op.ReleaseAll }
        ensures state { self.new ≡ after_reply self.old actor Op.ReleaseAll result }
    {
        let mut released = 0;
        for number in 1..self.mutexes() + 1 {
            let mutex = MutexNo(number);
            if self.owns(actor, mutex) {
                self.hand_over(mutex);
                released += 1;
            }
        }
        Reply::Released(released)
    }

    /// Ends the wait of the task.
    fn cancel(&mut self, actor: TaskNo, task: TaskNo) -> Reply
        ensures reply { result ≡ answer self.old actor (Op.Cancel task) }
        ensures state { self.new ≡ after_reply self.old actor (Op.Cancel task) result }
    {
        if self.is_unknown_task(task) {
            return Reply::Refused(Refusal::NoTask);
        }
        if !self.is_waiting(task) {
            return Reply::Refused(Refusal::NotWaiting);
        }
        self.leave(task);
        Reply::Withdrawn
    }

    /// Gives the task this base where it is a priority.
    fn set_base(&mut self, actor: TaskNo, task: TaskNo, level: u16) -> Reply
        ensures reply { result ≡ answer self.old actor (Op.SetBase task level) }
        ensures state { self.new ≡ after_reply self.old actor (Op.SetBase task level) result }
    {
        if self.is_unknown_task(task) {
            return Reply::Refused(Refusal::NoTask);
        }
        match Prio::new(level) {
            Some(prio) => {
                self.put_base(task, prio);
                Reply::Set
            }
            None => Reply::Refused(Refusal::Priority),
        }
    }

    /// Gives the PROTECT mutex this ceiling where it is a priority and no other task owns the mutex.
    fn set_ceiling(&mut self, actor: TaskNo, mutex: MutexNo, level: u16) -> Reply
        ensures reply { result ≡ answer self.old actor (Op.SetCeiling mutex level) }
        ensures state { self.new ≡ after_reply self.old actor (Op.SetCeiling mutex level) result }
    {
        if self.is_unknown_mutex(mutex) {
            return Reply::Refused(Refusal::NoMutex);
        }
        if self.ceiling(mutex).is_none() {
            return Reply::Refused(Refusal::NotProtect);
        }
        let Some(ceiling) = Prio::new(level) else {
            return Reply::Refused(Refusal::Priority);
        };
        if self.is_owned_by_another(actor, mutex) {
            return Reply::Refused(Refusal::Busy);
        }
        self.put_ceiling(mutex, ceiling);
        Reply::Set
    }

    /// Gives the actor the mutex, or gives it to the actor once more.
    fn grant(&mut self, actor: TaskNo, mutex: MutexNo)
        requires { IsFalse (locked_too_often self.old actor mutex) }
        ensures { self.new ≡ granted self.old actor mutex }
    {
        if self.relocks(actor, mutex) {
            self.put_count(mutex, self.count_of(mutex) + 1);
        } else {
            self.put_owner(mutex, Some(actor));
        }
    }

    /// Gives the mutex to its first waiter, who stops waiting, or frees it; returns that waiter.
    fn hand_over(&mut self, mutex: MutexNo) -> Option<Waiter>
        ensures first { result ≡ first_of self.old mutex }
        ensures state { self.new ≡ hand_over self.old mutex }
    {
        let first = self.first_of(mutex);
        self.put_owner(mutex, first.map(|waiter| waiter.task));
        if let Some(waiter) = &first {
            self.leave(waiter.task);
        }
        first
    }
}
