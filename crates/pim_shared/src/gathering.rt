//! Whether a log is one of the scripts.

ghost use Rattle.std.specs.Prelude.{◌≡◌, ◌≤◌, ◌∷◌, ◌++◌, ◌↔◌, [], IsTrue, All, length, slice_get};
ghost use Rattle.pim_base.specs.Runs.{IsInterleaving, asked_by};
ghost use Rattle.pim_base.specs.declared.steps.Entry.{Entry};
ghost use Rattle.pim_base.specs.declared.steps.Op.{Op};
ghost use Rattle.pim_shared.specs.Gathered.{IsGathered, lines};

use crate::SharedFault;
use crate::log::Log;
use pim_base::{Entry, Op};
use pim_manager::Manager;
use std::cmp::Ordering;

/// Returns the log if it begins at the state of `start` and its entries are an interleaving of the scripts: the steps of
/// each task, in order, are its script and then one release of all, and no other task has a step. The first script is
/// task 1's, the second task 2's, and so on.
///
/// It reads each entry at most once for each script, allocates nothing, and never waits.
///
/// # Errors
///
/// `Torn` for any other log, which is dropped.
pub fn gather(log: Log, start: &Manager, scripts: &[Vec<Op>]) -> Result<Log, SharedFault>
    ensures { IsGathered log start.now (lines scripts.now) result }
{
    if log.start().has_state_of(start) && is_interleaving(log.entries(), scripts) {
        Ok(log)
    } else {
        Err(SharedFault::Torn)
    }
}

/// Returns whether the steps of each task are its script and then one release of all, and no other task has a step.
fn is_interleaving(entries: &[Entry], scripts: &[Vec<Op>]) -> bool
    ensures { IsTrue result ↔ IsInterleaving entries.now (lines scripts.now) }
{
    for (index, script) in scripts.iter().enumerate() {
        if !has_made_script(entries, index + 1, script) {
            return false;
        }
    }
    have_scripts(entries, scripts.len())
}

/// Returns whether each entry is of one of the tasks 1 to `count`.
fn have_scripts(entries: &[Entry], count: usize) -> bool
    ensures { IsTrue result ↔ All (λ (e : Entry). (1 ≤ e.step.actor) × (e.step.actor ≤ count)) entries.now }
{
    let tasks = 1..=count;
    entries.iter().all(|entry| tasks.contains(&usize::from(entry.step.actor.get())))
}

/// Returns whether the steps of the task with this number are the script and then one release of all.
fn has_made_script(entries: &[Entry], task: usize, script: &[Op]) -> bool
    ensures { IsTrue result ↔ asked_by task entries.now ≡ script.now ++ Op.ReleaseAll ∷ [] }
{
    let mut done = 0;
    for entry in entries {
        if usize::from(entry.step.actor.get()) == task {
            if due(script, done) != Some(entry.step.op) {
                return false;
            }
            done += 1;
        }
    }
    due(script, done).is_none()
}

/// Returns the next step of a task that has made `done` steps: a line of its script, then one release of all, then none.
fn due(script: &[Op], done: usize) -> Option<Op>
    ensures { result ≡ slice_get (script.now ++ Op.ReleaseAll ∷ []) done }
{
    match done.cmp(&script.len()) {
        Ordering::Less => Some(script[done]),
        Ordering::Equal => Some(Op::ReleaseAll),
        Ordering::Greater => None,
    }
}
