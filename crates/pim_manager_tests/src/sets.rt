//! pim_sets: sets of numbers, the mutexes that tasks own, and notes of the priorities that tasks had.

ghost use Rattle.std.specs.Prelude.{◌≤◌};
ghost use Rattle.pim_base.specs.declared.limits.TheConstants.{MAX_TASKS};

use crate::priorities::prio;
use pim_base::{MutexNo, TaskNo};
use pim_sets::{Changed, Notes, NumberSet, Numbers, Owned, OwnedSets, filled, put};
use std::process::Abort;
use std::test::Fail;

/// Returns the first three of these numbers.
fn three(mut numbers: Numbers<'_>) -> [Option<u16>; 3] {
    [numbers.next(), numbers.next(), numbers.next()]
}

#[test]
fn numbers_are_in_ascending_order(rt: HostRuntime) {
    let mut set = NumberSet::new();
    assert!(rt; set.is_empty());
    set.insert(319);
    set.insert(64);
    set.insert(63);
    set.insert(64);
    assert!(rt; three(set.iter()) == [Some(63), Some(64), Some(319)]);
    set.remove(63);
    assert!(rt; three(set.iter()) == [Some(64), Some(319), None]);
    assert!(rt; [set.contains(64), set.contains(63)] == [true, false]);
    assert!(rt; three(Numbers::none()) == [None; 3]);
}

/// Tests that the task owns these mutexes, and no third one.
fn expect_owned(rt: &impl Abort, mut owned: Owned<'_>, mutexes: [Option<MutexNo>; 2]) {
    let first = [owned.next(), owned.next()];
    assert!(rt; first == mutexes);
    assert!(rt; owned.next().is_none());
}

#[test]
fn copy_keeps_the_mutexes_that_each_task_owned(rt: HostRuntime) -> Result<(), Fail> {
    const BOTH: [Option<MutexNo>; 2] = [Some(MutexNo(5)), Some(MutexNo(256))];
    let mut sets = OwnedSets::new(rt.alloc(), 2)?;
    sets.insert(TaskNo(2), MutexNo(256));
    sets.insert(TaskNo(2), MutexNo(5));
    let copy = sets.try_clone(rt.alloc())?;
    sets.remove(TaskNo(2), MutexNo(5));
    expect_owned(&rt, Owned::new(copy.of(TaskNo(2))), BOTH);
    expect_owned(&rt, Owned::new(sets.of(TaskNo(2))), [BOTH[1], None]);
    expect_owned(&rt, Owned::new(sets.of(TaskNo(1))), [None, None]);
    Ok(())
}

#[test]
fn places_are_counted_from_1(rt: HostRuntime) -> Result<(), Fail> {
    let mut items = filled(rt.alloc(), 3, 7u16)?;
    put(&mut items, 2, 9);
    assert!(rt; items.as_slice() == &[7, 9, 7][..]);
    Ok(())
}

/// Tests that tasks 1 and 3 are noted, and no others.
fn expect_noted(rt: &impl Abort, notes: &Notes) {
    assert!(rt; three(notes.tasks()) == [Some(1), Some(3), None]);
    let mut changed = Changed::new(notes);
    let tasks = [changed.next(), changed.next(), changed.next()];
    assert!(rt; tasks == [Some(TaskNo(1)), Some(TaskNo(3)), None]);
    assert!(rt; Changed::none().next().is_none());
    assert!(rt; notes.count() == 2);
}

/// Notes that the task had one level and has another one.
fn note(rt: &impl Abort, notes: &mut Notes, task: u16, levels: [u16; 2])
    requires least { 1 ≤ task }
    requires most { task ≤ MAX_TASKS }
{
    let (had, prio) = (prio(rt, levels[0]), prio(rt, levels[1]));
    if had != prio {
        notes.note(TaskNo(task), had, prio);
    }
}

#[test]
fn task_that_has_its_first_priority_again_is_not_noted(rt: HostRuntime) -> Result<(), Fail> {
    let mut notes = Notes::new(rt.alloc())?;
    let is_new = notes.is_empty();
    note(&rt, &mut notes, 3, [40, 50]);
    note(&rt, &mut notes, 2, [20, 30]);
    note(&rt, &mut notes, 3, [50, 60]);
    note(&rt, &mut notes, 2, [30, 20]);
    note(&rt, &mut notes, 1, [10, 20]);
    expect_noted(&rt, &notes);
    note(&rt, &mut notes, 3, [60, 40]);
    assert!(rt; notes.count() == 1);
    let is_noted = notes.is_empty();
    notes.clear();
    assert!(rt; [is_new, is_noted, notes.is_empty()] == [true, false, true]);
    assert!(rt; notes.count() == 0);
    Ok(())
}
