//! Mistakes that the comparison must find.

use crate::lookers::Record;
use pim_base::{Entry, MutexNo, Op, Prio, Protocol, Reason, Reply, Step, TaskNo};
use pim_plain::PlainManager;

/// A mistake that is put into what is compared.
#[derive(Clone, Copy, PartialEq, Eq)]
pub enum Planted {
    Nothing,
    /// The last reply of the log is another one.
    Reply,
    /// The first read has another priority.
    Priority,
    /// The first read has another reason.
    Reason,
    /// In the plain manager task 1 has another base at the end.
    Base,
    /// In the plain manager task 1 owns the first NONE mutex at the end, when all mutexes are free.
    Owner,
    /// In the plain manager task 2 waits for that, too.
    Wait,
    /// In the plain manager the first PROTECT mutex has another ceiling at the end.
    Ceiling,
}

impl Planted {
    /// All mistakes, and before them none.
    pub const ALL: [Planted; 8] = [
        Planted::Nothing,
        Planted::Reply,
        Planted::Priority,
        Planted::Reason,
        Planted::Base,
        Planted::Owner,
        Planted::Wait,
        Planted::Ceiling,
    ];

    pub fn name(self) -> &'static str {
        match self {
            Planted::Nothing => "nothing",
            Planted::Reply => "reply",
            Planted::Priority => "priority",
            Planted::Reason => "reason",
            Planted::Base => "base",
            Planted::Owner => "owner",
            Planted::Wait => "wait",
            Planted::Ceiling => "ceiling",
        }
    }

    /// Changes the entries of the log and the first reader's record, if the mistake is in them.
    pub fn change_run(self, entries: &mut [Entry], records: &mut [Record]) {
        if self == Planted::Reply
            && let Some(entry) = entries.last_mut()
        {
            entry.reply = other_reply(entry.reply);
        }
        if let Some(record) = records.first_mut()
            && let Some(look) = record.told.first_mut()
        {
            if self == Planted::Priority {
                look.prio = other_prio(look.prio);
            } else if self == Planted::Reason {
                look.reason = other_reason(look.reason);
            }
        }
    }

    /// Changes the plain manager at the end of the run, if the mistake is in it.
    pub fn change_end(self, plain: &mut PlainManager) {
        match self {
            Planted::Base => set_base(plain),
            Planted::Owner => lock(plain, TaskNo(1)),
            Planted::Wait => {
                lock(plain, TaskNo(1));
                lock(plain, TaskNo(2));
            }
            Planted::Ceiling => set_ceiling(plain),
            Planted::Nothing | Planted::Reply | Planted::Priority | Planted::Reason => {}
        }
    }
}

/// Gives task 1 another base.
fn set_base(plain: &mut PlainManager) {
    if let Some(base) = plain.base(TaskNo(1)) {
        let level = other_prio(base).get();
        make(plain, TaskNo(1), Op::SetBase(TaskNo(1), level));
    }
}

/// Lets a task lock the first NONE mutex.
fn lock(plain: &mut PlainManager, task: TaskNo) {
    for number in 1..=plain.mutexes() {
        if plain.protocol(MutexNo(number)) == Some(Protocol::None) {
            make(plain, task, Op::Lock(MutexNo(number)));
            return;
        }
    }
}

/// Gives the first PROTECT mutex another ceiling.
fn set_ceiling(plain: &mut PlainManager) {
    for number in 1..=plain.mutexes() {
        if let Some(protocol) = plain.protocol(MutexNo(number))
            && let Some(ceiling) = protocol.ceiling()
        {
            let level = other_prio(ceiling).get();
            make(plain, TaskNo(1), Op::SetCeiling(MutexNo(number), level));
            return;
        }
    }
}

fn make(plain: &mut PlainManager, actor: TaskNo, op: Op) {
    plain.step(Step { actor, op });
}

fn other_reply(reply: Reply) -> Reply {
    if reply == Reply::Kept {
        Reply::Freed
    } else {
        Reply::Kept
    }
}

fn other_prio(prio: Prio) -> Prio {
    let level = if prio.get() == 1 { 2 } else { 1 };
    Prio::new(level).unwrap_or(prio)
}

fn other_reason(reason: Reason) -> Reason {
    if reason == Reason::Base {
        Reason::Waiter(TaskNo(1), MutexNo(1))
    } else {
        Reason::Base
    }
}
