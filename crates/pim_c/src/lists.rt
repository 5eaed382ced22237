//! Lists, copied to memory of the caller.

ghost use Rattle.std.specs.Prelude.{◌≡◌, length, map};
ghost use Rattle.pim_ffi.specs.Copied.{copied};
ghost use Rattle.pim_c.specs.Shapes.{c_changed_prio, c_changed_task, c_handed, c_waiter};
ghost use Rattle.pim_c.specs.Lists.{changed_in, handed_in, prios_in, waiters_in};
ghost use Rattle.pim_manager.specs.Changed.{changed_prio};

use crate::changed_prio::CChangedPrio;
use crate::changed_task::CChangedTask;
use crate::handed::CHanded;
use crate::handle::Handle;
use crate::waiter::CWaiter;
use pim_base::{MutexNo, Waiter};
use pim_manager::TrackedManager;

/// Copies the waiters for the mutex, the next owner first, as many as there is room for. Returns how many wait, or 0
/// for an unknown mutex or without a manager.
#[unsafe(no_mangle)]
pub extern "C" fn pim_waiters(handle: &mut Handle, mutex: u16, to: &mut [CWaiter]) -> usize
    ensures count { result ≡ length (waiters_in handle.old.held mutex) }
    ensures copied { to.new ≡ copied (map c_waiter (waiters_in handle.old.held mutex)) to.old }
    ensures same { handle.new.held ≡ handle.old.held }
{
    match handle.get_mut() {
        None => 0,
        Some(held) => match held.manager().waiters(MutexNo(mutex)) {
            Some(waiters) => copy_waiters(waiters, to),
            None => 0,
        },
    }
}

/// Copies the tasks whose effective priority the last step changed, in ascending order, as many as there is room for.
/// Returns how many there are, 0 without a manager.
#[unsafe(no_mangle)]
pub extern "C" fn pim_changed(handle: &mut Handle, to: &mut [CChangedTask]) -> usize
    ensures count { result ≡ length (changed_in handle.old.held) }
    ensures copied { to.new ≡ copied (map c_changed_task (changed_in handle.old.held)) to.old }
    ensures same { handle.new.held ≡ handle.old.held }
{
    match handle.get_mut() {
        None => 0,
        Some(held) => copy_changed(held, to),
    }
}

/// Copies the tasks that `pim_changed` does, with their priorities and without the reasons, as many as there is room for.
/// Returns how many there are, 0 without a manager.
#[unsafe(no_mangle)]
pub extern "C" fn pim_changed_prios(handle: &mut Handle, to: &mut [CChangedPrio]) -> usize
    ensures count { result ≡ length (prios_in handle.old.held) }
    ensures copied { to.new ≡ copied (map c_changed_prio (prios_in handle.old.held)) to.old }
    ensures same { handle.new.held ≡ handle.old.held }
{
    match handle.get_mut() {
        None => 0,
        Some(held) => copy_prios(held, to),
    }
}

/// Copies the mutexes that the last step handed to waiters, in ascending order, with their new owners, as many as there
/// is room for. Returns how many there are, 0 without a manager.
#[unsafe(no_mangle)]
pub extern "C" fn pim_handed(handle: &mut Handle, to: &mut [CHanded]) -> usize
    ensures count { result ≡ length (handed_in handle.old.held) }
    ensures copied { to.new ≡ copied (map c_handed (handed_in handle.old.held)) to.old }
    ensures same { handle.new.held ≡ handle.old.held }
{
    match handle.get_mut() {
        None => 0,
        Some(held) => copy_handed(held, to),
    }
}

/// Copies the waiters, as many as there is room for. Returns how many there are.
fn copy_waiters(from: &[Waiter], to: &mut [CWaiter]) -> usize
    ensures count { result ≡ length from.now }
    ensures copied { to.new ≡ copied (map c_waiter from.now) to.old }
{
    for place in 0..from.len().min(to.len()) {
        to[place] = CWaiter::of(from[place]);
    }
    from.len()
}

/// Copies the tasks whose effective priority the manager's last step changed, as many as there is room for. Returns how
/// many there are.
fn copy_changed(held: &TrackedManager, to: &mut [CChangedTask]) -> usize
    ensures count { result ≡ length held.now.changed }
    ensures copied { to.new ≡ copied (map c_changed_task held.now.changed) to.old }
{
    let mut count = 0;
    for changed in held.changed() {
        if count < to.len() {
            to[count] = CChangedTask::of(changed);
        }
        count += 1;
    }
    count
}

/// Copies the tasks whose effective priority the manager's last step changed, with their priorities, as many as there is
/// room for. Returns how many there are.
fn copy_prios(held: &TrackedManager, to: &mut [CChangedPrio]) -> usize
    ensures count { result ≡ length (map changed_prio held.now.changed) }
    ensures copied { to.new ≡ copied (map c_changed_prio (map changed_prio held.now.changed)) to.old }
{
    let mut count = 0;
    for changed in held.changed_prios() {
        if count < to.len() {
            to[count] = CChangedPrio::of(changed);
        }
        count += 1;
    }
    count
}

/// Copies the mutexes that the manager's last step handed over, with their new owners, as many as there is room for.
/// Returns how many there are.
fn copy_handed(held: &TrackedManager, to: &mut [CHanded]) -> usize
    ensures count { result ≡ length held.now.handed }
    ensures copied { to.new ≡ copied (map c_handed held.now.handed) to.old }
{
    let mut count = 0;
    for handed in held.handed() {
        if count < to.len() {
            to[count] = CHanded::of(handed);
        }
        count += 1;
    }
    count
}
