//! Calls and reads of one shared manager as rows, and how they are played.

use crate::making::{by, entry};
use pim_base::{Entry, MutexNo, Op, Reason, Reply, TaskNo};
use pim_manager::Manager;
use pim_shared::{Looker, Settled, Shared, SharedFault};
use std::alloc::Global;
use std::process::Abort;
use std::sync::Wait;

/// What a call returns.
pub type Answer = Result<Reply, SharedFault>;

/// What a read returns: the number of entries, the priority, and the reason.
pub type Look = Result<Option<(u64, u16, Reason)>, SharedFault>;

/// A call or a read of a shared manager, and what it returns. The readers are numbered from 0.
pub enum Row {
    /// The task makes the step by `call`.
    Call(u16, Op, Answer),
    /// The task makes the step by `call_with` this reader.
    CallWith(usize, u16, Op, Answer),
    /// The reader reads of the task.
    Look(usize, u16, Look),
    /// `settle` of the task and the mutex.
    Settle(u16, u16, Result<Settled, SharedFault>),
}

/// What differs from the rows.
#[derive(Clone, Copy, Debug, PartialEq, Eq)]
pub enum Wrong {
    /// What the row with this index returns.
    Row(usize),
    /// The start or the entries of the log.
    Log,
    /// A read after the end, which must return `Closed`.
    Read,
}

/// Reads of the task.
pub fn look(looker: &mut Looker, task: u16) -> Look {
    match looker.look(TaskNo(task))? {
        Some(seen) => Ok(Some((seen.steps, seen.prio.get(), seen.reason))),
        None => Ok(None),
    }
}

/// Makes the call or the read, and returns whether it returns what the row says.
fn is_so<R: Wait>(rt: &R, shared: &Shared, lookers: &mut [Looker], row: &Row) -> bool {
    match row {
        Row::Call(actor, op, answer) => shared.call(rt, by(*actor, *op)) == *answer,
        Row::CallWith(place, actor, op, answer) => match lookers.get_mut(*place) {
            Some(looker) => shared.call_with(rt, looker, by(*actor, *op)) == *answer,
            None => false,
        },
        Row::Look(place, task, seen) => match lookers.get_mut(*place) {
            Some(looker) => look(looker, *task) == *seen,
            None => false,
        },
        Row::Settle(task, mutex, answer) => {
            shared.settle(rt, TaskNo(*task), MutexNo(*mutex)) == *answer
        }
    }
}

/// Plays the rows up to the first one that returns something else, and returns its index.
pub fn first_wrong<R: Wait>(
    rt: &R,
    shared: &Shared,
    lookers: &mut [Looker],
    rows: &[Row],
) -> Option<usize> {
    for (index, row) in rows.iter().enumerate() {
        if !is_so(rt, shared, lookers, row) {
            return Some(index);
        }
    }
    None
}

/// The entry that the log has of the row, if it is a call that got a reply.
fn entry_of(row: &Row) -> Option<Entry> {
    match row {
        Row::Call(actor, op, Ok(reply)) | Row::CallWith(_, actor, op, Ok(reply)) => {
            Some(entry(by(*actor, *op), *reply))
        }
        _ => None,
    }
}

/// Whether the entries are those of the rows, each once and in order.
pub fn are_logged(entries: &[Entry], rows: &[Row]) -> bool {
    let mut rest = entries.iter();
    for row in rows {
        if let Some(entry) = entry_of(row)
            && rest.next() != Some(&entry)
        {
            return false;
        }
    }
    rest.next().is_none()
}

fn are_closed(lookers: &mut [Looker]) -> bool {
    for looker in lookers {
        if look(looker, 1) != Err(SharedFault::Closed) {
            return false;
        }
    }
    true
}

/// Plays the rows on a manager that is shared with this room for entries and this number of readers, and ends it.
fn play<R: Wait + Abort>(
    rt: &R,
    alloc: Global,
    manager: Manager,
    room: usize,
    lookers: u16,
    rows: &[Row],
) -> Option<Wrong> {
    let start = manager.try_clone(alloc).expect(rt, "memory");
    let (shared, mut lookers) = Shared::new(rt, alloc, manager, room, lookers).expect(rt, "memory");
    let wrong = first_wrong(rt, &shared, &mut lookers, rows);
    let (_, log) = shared.finish(rt);
    if let Some(index) = wrong {
        Some(Wrong::Row(index))
    } else if !log.start().has_state_of(&start) || !are_logged(log.entries(), rows) {
        Some(Wrong::Log)
    } else if !are_closed(&mut lookers) {
        Some(Wrong::Read)
    } else {
        None
    }
}

/// Tests that each call and read returns what its row says. The log must begin at the manager and have each call that
/// got a reply.
pub fn expect_rows<R: Wait + Abort>(
    rt: &R,
    alloc: Global,
    manager: Manager,
    room: usize,
    lookers: u16,
    rows: &[Row],
) {
    let wrong = play(rt, alloc, manager, room, lookers, rows);
    assert!(rt; wrong.is_none(), "{wrong:?}");
}
