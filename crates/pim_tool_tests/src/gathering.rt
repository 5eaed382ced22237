//! Which logs are those of given scripts.

use crate::making::{FIRST, by, made, scripts_of};
use Op::{Lock, ReleaseAll, Unlock};
use pim_base::{Op, Protocol};
use pim_manager::Manager;
use pim_shared::{Log, Shared, gather};
use std::alloc::Global;
use std::process::Abort;
use std::sync::Wait;

/// The log of these steps, made on the manager.
fn log_of<R: Wait + Abort>(rt: &R, alloc: Global, manager: Manager, steps: &[(u16, Op)]) -> Log {
    let (shared, _) = Shared::new(rt, alloc, manager, 9, 0).expect(rt, "memory");
    for (actor, op) in steps {
        let _reply = shared.call(rt, by(*actor, *op));
    }
    let (_, log) = shared.finish(rt);
    log
}

/// Whether the log of the steps is that of the scripts, from a start in which task 2 has this base. It began with 20.
fn gathers<R: Wait + Abort>(
    rt: &R,
    alloc: Global,
    level: u16,
    steps: &[(u16, Op)],
    scripts: &[&[Op]],
) -> bool {
    let manager = made(rt, alloc, &[10, 20], &[Protocol::None]);
    let log = log_of(rt, alloc, manager, steps);
    let start = made(rt, alloc, &[10, level], &[Protocol::None]);
    let scripts = scripts_of(rt, alloc, scripts);
    gather(log, &start, &scripts).is_ok()
}

const LINES: [Op; 2] = [Lock(FIRST), Unlock(FIRST)];

const LOCK: [Op; 1] = [Lock(FIRST)];

/// Whether a log of a lock and a release by task 1 is that of the scripts.
fn gathers_lock<R: Wait + Abort>(rt: &R, alloc: Global, level: u16, scripts: &[&[Op]]) -> bool {
    let steps = [(1, Lock(FIRST)), (1, ReleaseAll)];
    gathers(rt, alloc, level, &steps, scripts)
}

#[test]
fn a_log_of_one_script(rt: HostRuntime) {
    const RELEASED: [Op; 2] = [Lock(FIRST), ReleaseAll];
    let alloc = rt.alloc();
    assert!(rt; gathers_lock(&rt, alloc, 20, &[&LOCK]));
    // It begins elsewhere.
    assert!(rt; !gathers_lock(&rt, alloc, 21, &[&LOCK]));
    // A step is missing, in the log or in the script, or a complete script is.
    assert!(rt; !gathers_lock(&rt, alloc, 20, &[&LINES]));
    assert!(rt; !gathers_lock(&rt, alloc, 20, &[&RELEASED]));
    assert!(rt; !gathers_lock(&rt, alloc, 20, &[&[]]));
    assert!(rt; !gathers_lock(&rt, alloc, 20, &[&LOCK, &[]]));
}

#[test]
fn a_log_of_an_actor_without_a_script(rt: HostRuntime) {
    for actor in [0, 2, 65_535] {
        let steps = [(1, ReleaseAll), (actor, ReleaseAll)];
        let shown = gathers(&rt, rt.alloc(), 20, &steps, &[&[]]);
        assert!(rt; !shown, "{actor}");
    }
}

/// A manager whose task 1 has locked a recursive mutex this often.
fn locked<R: Abort>(rt: &R, alloc: Global, times: u16) -> Manager {
    let mut manager = made(rt, alloc, &[10], &[Protocol::InheritRecursive]);
    for _lock in 0..times {
        manager.step(by(1, Lock(FIRST)));
    }
    manager
}

/// Whether the log of a release, from a start with two locks, is gathered with one that has this number of locks.
fn gathers_locked<R: Wait + Abort>(rt: &R, alloc: Global, times: u16) -> bool {
    let log = log_of(rt, alloc, locked(rt, alloc, 2), &[(1, ReleaseAll)]);
    let scripts = scripts_of(rt, alloc, &[&[]]);
    gather(log, &locked(rt, alloc, times), &scripts).is_ok()
}

#[test]
fn a_log_begins_with_the_counts_of_its_start(rt: HostRuntime) {
    assert!(rt; gathers_locked(&rt, rt.alloc(), 2));
    assert!(rt; !gathers_locked(&rt, rt.alloc(), 1));
}

#[test]
fn a_log_of_two_scripts(rt: HostRuntime) {
    const STEPS: [(u16, Op); 5] = [
        (2, Lock(FIRST)),
        (1, Lock(FIRST)),
        (2, ReleaseAll),
        (1, Unlock(FIRST)),
        (1, ReleaseAll),
    ];
    const TURNED: [Op; 2] = [Unlock(FIRST), Lock(FIRST)];
    let alloc = rt.alloc();
    assert!(rt; gathers(&rt, alloc, 20, &STEPS, &[&LINES, &LOCK]));
    assert!(rt; !gathers(&rt, alloc, 20, &STEPS, &[&TURNED, &LOCK]));
    assert!(rt; !gathers(&rt, alloc, 20, &STEPS, &[&LOCK, &LINES]));
    // Task 2 has no script.
    assert!(rt; !gathers(&rt, alloc, 20, &STEPS, &[&LINES]));
}
