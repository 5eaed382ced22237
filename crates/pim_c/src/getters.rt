//! The getters, which change nothing.

ghost use Rattle.std.specs.Prelude.{◌≡◌};
ghost use Rattle.pim_c.specs.Getters.{base_in, count_in, effective_in, mutex_count, or_zero, owner_in, protocol_in};
ghost use Rattle.pim_c.specs.Getters.{reason_in, task_count, ticket_in, waits_for_in};

use crate::handle::Handle;
use crate::reason::CReason;
use pim_base::{MutexNo, Prio, TaskNo};
use pim_ffi::{CProtocol, UNKNOWN};

/// Returns how many tasks there are, or 0 if there is no manager.
#[unsafe(no_mangle)]
pub extern "C" fn pim_task_count(handle: &mut Handle) -> u16
    ensures count { result ≡ task_count handle.old.held }
    ensures same { handle.new.held ≡ handle.old.held }
{
    match handle.get_mut() {
        None => 0,
        Some(held) => held.manager().tasks(),
    }
}

/// Returns how many mutexes there are, or 0 if there is no manager.
#[unsafe(no_mangle)]
pub extern "C" fn pim_mutex_count(handle: &mut Handle) -> u16
    ensures count { result ≡ mutex_count handle.old.held }
    ensures same { handle.new.held ≡ handle.old.held }
{
    match handle.get_mut() {
        None => 0,
        Some(held) => held.manager().mutexes(),
    }
}

/// Returns the ticket that the next waiter gets, or 0 if there is no manager.
#[unsafe(no_mangle)]
pub extern "C" fn pim_next_ticket(handle: &mut Handle) -> u64
    ensures ticket { result ≡ ticket_in handle.old.held }
    ensures same { handle.new.held ≡ handle.old.held }
{
    match handle.get_mut() {
        None => 0,
        Some(held) => held.manager().next_ticket(),
    }
}

/// Returns the effective priority of the task, or 0 for an unknown task.
#[unsafe(no_mangle)]
pub extern "C" fn pim_effective_prio(handle: &mut Handle, task: u16) -> u16
    ensures level { result ≡ effective_in handle.old.held task }
    ensures same { handle.new.held ≡ handle.old.held }
{
    match handle.get_mut() {
        None => 0,
        Some(held) => level_of(held.manager().effective(TaskNo(task))),
    }
}

/// Returns the base priority of the task, or 0 for an unknown task.
#[unsafe(no_mangle)]
pub extern "C" fn pim_base_prio(handle: &mut Handle, task: u16) -> u16
    ensures level { result ≡ base_in handle.old.held task }
    ensures same { handle.new.held ≡ handle.old.held }
{
    match handle.get_mut() {
        None => 0,
        Some(held) => level_of(held.manager().base(TaskNo(task))),
    }
}

/// Returns why the task has its effective priority. It reads each mutex that the task owns once.
#[unsafe(no_mangle)]
pub extern "C" fn pim_task_reason(handle: &mut Handle, task: u16) -> CReason
    ensures reason { result ≡ reason_in handle.old.held task }
    ensures same { handle.new.held ≡ handle.old.held }
{
    match handle.get_mut() {
        None => CReason::none(),
        Some(held) => match held.manager().reason(TaskNo(task)) {
            Some(reason) => CReason::of(reason),
            None => CReason::none(),
        },
    }
}

/// Returns the mutex that the task waits for, 0 if it waits for none, or `UNKNOWN` for an unknown task.
#[unsafe(no_mangle)]
pub extern "C" fn pim_waits_for(handle: &mut Handle, task: u16) -> u16
    ensures mutex { result ≡ waits_for_in handle.old.held task }
    ensures same { handle.new.held ≡ handle.old.held }
{
    match handle.get_mut() {
        None => UNKNOWN,
        Some(held) => match held.manager().waits_for(TaskNo(task)) {
            None => UNKNOWN,
            Some(None) => 0,
            Some(Some(mutex)) => mutex.get(),
        },
    }
}

/// Returns the owner of the mutex, 0 if it is free, or `UNKNOWN` for an unknown mutex.
#[unsafe(no_mangle)]
pub extern "C" fn pim_owner(handle: &mut Handle, mutex: u16) -> u16
    ensures owner { result ≡ owner_in handle.old.held mutex }
    ensures same { handle.new.held ≡ handle.old.held }
{
    match handle.get_mut() {
        None => UNKNOWN,
        Some(held) => match held.manager().owner(MutexNo(mutex)) {
            None => UNKNOWN,
            Some(None) => 0,
            Some(Some(task)) => task.get(),
        },
    }
}

/// Returns how many unlocks free the mutex, 0 if it is free, or `UNKNOWN` for an unknown mutex.
#[unsafe(no_mangle)]
pub extern "C" fn pim_lock_count(handle: &mut Handle, mutex: u16) -> u16
    ensures count { result ≡ count_in handle.old.held mutex }
    ensures same { handle.new.held ≡ handle.old.held }
{
    match handle.get_mut() {
        None => UNKNOWN,
        Some(held) => held.manager().count(MutexNo(mutex)).unwrap_or(UNKNOWN),
    }
}

/// Returns the protocol of the mutex, of the kind `UNKNOWN` for an unknown mutex.
#[unsafe(no_mangle)]
pub extern "C" fn pim_mutex_protocol(handle: &mut Handle, mutex: u16) -> CProtocol
    ensures protocol { result ≡ protocol_in handle.old.held mutex }
    ensures same { handle.new.held ≡ handle.old.held }
{
    match handle.get_mut() {
        None => CProtocol::none(),
        Some(held) => match held.manager().protocol(MutexNo(mutex)) {
            Some(protocol) => CProtocol::of(protocol),
            None => CProtocol::none(),
        },
    }
}

/// Returns the level of the priority, or 0 if there is none.
fn level_of(prio: Option<Prio>) -> u16
    ensures { result ≡ or_zero prio }
{
    match prio {
        Some(prio) => prio.get(),
        None => 0,
    }
}
