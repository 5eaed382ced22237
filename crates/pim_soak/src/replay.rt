//! Compares a log, and what lookers saw meanwhile, with the plain manager.

use crate::figures::{Figures, count};
use crate::lookers::{Look, Record};
use pim_base::{Entry, MutexNo, Refusal, Reply, TaskNo};
use pim_manager::Manager;
use pim_plain::PlainManager;
use std::alloc::{AllocError, Global};

/// Makes the steps of the log on the plain manager. Its replies must be those of the log. Compares each read with what
/// the plain manager says after the entries that the read saw.
pub fn replay(
    figures: &mut Figures,
    plain: &mut PlainManager,
    entries: &[Entry],
    records: &[Record],
) {
    let mut steps = 0;
    compare_looks(figures, plain, steps, records);
    for entry in entries {
        let reply = plain.step(entry.step);
        figures.expect(reply == entry.reply);
        count_reply(figures, reply);
        count(&mut steps, 1);
        compare_looks(figures, plain, steps, records);
    }
    figures.steps = steps;
    for record in records {
        count(&mut figures.looks, record.looks);
        count(&mut figures.differences, record.wrong);
        // The last read came after all workers had finished.
        figures.expect(record.steps == steps);
    }
}

/// Counts the reply to a step of a worker. A worker makes no step while it waits.
fn count_reply(figures: &mut Figures, reply: Reply) {
    match reply {
        Reply::Queued => count(&mut figures.queued, 1),
        Reply::Refused(Refusal::Deadlock) => count(&mut figures.deadlocks, 1),
        Reply::Refused(Refusal::Ceiling) => count(&mut figures.ceilings, 1),
        Reply::Refused(Refusal::Waiting) => figures.expect(false),
        _ => {}
    }
}

/// Compares the reads that saw this many entries.
fn compare_looks(figures: &mut Figures, plain: &PlainManager, steps: u64, records: &[Record]) {
    for record in records {
        for look in &record.told {
            if look.steps == steps {
                count(&mut figures.distinct, 1);
                figures.expect(is_right(plain, look));
            }
        }
    }
}

/// Returns whether the plain manager says of the task what was seen.
fn is_right(plain: &PlainManager, look: &Look) -> bool {
    let Look {
        task,
        steps: _,
        prio,
        reason,
    } = *look;
    plain.effective(task) == Some(prio) && plain.reason(task) == Some(reason)
}

/// Compares the manager with the plain one at the end of the run.
///
/// # Errors
///
/// Returns `AllocError` if out of memory.
pub fn compare_ends(
    alloc: Global,
    figures: &mut Figures,
    manager: &Manager,
    plain: &PlainManager,
) -> Result<(), AllocError> {
    figures.expect(manager.next_ticket() == plain.next_ticket());
    for number in 1..=plain.tasks() {
        let task = TaskNo(number);
        let waits_for = plain.wait_of(task).map(|wait| wait.mutex);
        figures.expect(manager.base(task) == plain.base(task));
        figures.expect(manager.effective(task) == plain.effective(task));
        figures.expect(manager.reason(task) == plain.reason(task));
        figures.expect(manager.waits_for(task) == Some(waits_for));
    }
    for number in 1..=plain.mutexes() {
        let mutex = MutexNo(number);
        let queue = plain.queue_of(alloc, mutex)?;
        figures.expect(manager.protocol(mutex) == plain.protocol(mutex));
        figures.expect(manager.owner(mutex) == Some(plain.owner_of(mutex)));
        figures.expect(manager.count(mutex) == plain.count(mutex));
        figures.expect(manager.waiters(mutex) == Some(queue.as_slice()));
    }
    Ok(())
}
