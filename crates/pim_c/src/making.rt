//! How a manager is made and dropped.

ghost use Rattle.std.specs.Prelude.{◌≡◌, ◌≢◌, true, IfOk};
ghost use Rattle.std.specs.List.{list_all};
ghost use Rattle.pim_ffi.specs.Protocols.{is_priority};
ghost use Rattle.pim_c.specs.Making.{first_fault, is_protocol, made, priorities_meant, protocols_meant};

use crate::handle::Handle;
use crate::numbers::{
    FAULT_BAD_BASE, FAULT_BAD_PROTOCOL, FAULT_NO_MEMORY, FAULT_OCCUPIED, FAULT_TOO_MANY_MUTEXES,
    FAULT_TOO_MANY_TASKS, MADE,
};
use pim_base::{MAX_MUTEXES, MAX_TASKS, Prio, Protocol};
use pim_ffi::CProtocol;
use pim_manager::TrackedManager;
use std::alloc::{AllocError, Global};

/// Makes a manager of tasks with these base priorities and of mutexes with these protocols. All mutexes are free, no
/// task waits, and the next ticket is 1.
///
/// Returns `MADE`, or the first of these faults that applies, and then the handle stays as it was: `FAULT_OCCUPIED` if it
/// has a manager already, `FAULT_TOO_MANY_TASKS` or `FAULT_TOO_MANY_MUTEXES` if there are more than 256, `FAULT_BAD_BASE`
/// if a base isn't 1 to 99, `FAULT_BAD_PROTOCOL` if the kind of a protocol is unknown or its ceiling isn't 1 to 99,
/// `FAULT_NO_MEMORY` if out of memory.
#[unsafe(no_mangle)]
pub extern "C" fn pim_make(
    alloc: Global,
    handle: &mut Handle,
    bases: &[u16],
    protocols: &[CProtocol],
) -> u32
    ensures fault { first_fault handle.old.held bases.now protocols.now ≢ MADE → result ≡ first_fault handle.old.held bases.now protocols.now }
    ensures no_fault { first_fault handle.old.held bases.now protocols.now ≡ MADE → result ≢ MADE → result ≡ FAULT_NO_MEMORY }
    ensures made { result ≡ MADE → handle.new.held ≡ Some (made bases.now protocols.now) }
    ensures unmade { result ≢ MADE → handle.new.held ≡ handle.old.held }
{
    if let Some(held) = handle.take(alloc) {
        handle.put(held);
        return FAULT_OCCUPIED;
    }
    if MAX_TASKS < bases.len() {
        return FAULT_TOO_MANY_TASKS;
    }
    if MAX_MUTEXES < protocols.len() {
        return FAULT_TOO_MANY_MUTEXES;
    }
    if !are_priorities(bases) {
        return FAULT_BAD_BASE;
    }
    if !are_protocols(protocols) {
        return FAULT_BAD_PROTOCOL;
    }
    let Ok(held) = hold(alloc, bases, protocols) else {
        return FAULT_NO_MEMORY;
    };
    handle.put(held);
    MADE
}

/// Drops the manager, if there is one, and frees its memory.
#[unsafe(no_mangle)]
pub extern "C" fn pim_drop(alloc: Global, handle: &mut Handle)
    ensures { handle.new.held ≡ None }
{
    drop(handle.take(alloc));
}

/// Returns whether each is a priority.
fn are_priorities(bases: &[u16]) -> bool
    ensures { result ≡ list_all is_priority bases.now }
{
    bases.iter().all(|base| 1 <= *base && *base <= 99)
}

/// Returns whether each has a known kind, and a priority as its ceiling where it needs one.
fn are_protocols(protocols: &[CProtocol]) -> bool
    ensures { result ≡ list_all is_protocol protocols.now }
{
    protocols.iter().all(|protocol| protocol.read().is_some())
}

/// Returns a manager of tasks with these base priorities and of mutexes with these protocols.
///
/// # Errors
///
/// Returns `AllocError` if out of memory, or if there are more than 256 tasks or mutexes.
#[tactic(auto, using(crate::proofs::Priorities::priorities_meant_of_priorities))]
fn hold(
    alloc: Global,
    bases: &[u16],
    protocols: &[CProtocol],
) -> Result<Box<TrackedManager, Global>, AllocError>
    requires { list_all is_priority bases.now ≡ true }
    ensures { IfOk result (λ held. held.value ≡ made bases.now protocols.now) }
{
    let bases = read_bases(alloc, bases)?;
    let protocols = read_protocols(alloc, protocols)?;
    TrackedManager::new(alloc, &bases, &protocols).map_err(|_| AllocError)
}

/// Returns those of the levels that are priorities.
///
/// # Errors
///
/// Returns `AllocError` if out of memory.
fn read_bases(alloc: Global, bases: &[u16]) -> Result<Vec<Prio>, AllocError>
    ensures { IfOk result (λ prios. prios.items ≡ priorities_meant bases.now) }
{
    bases
        .iter()
        .filter_map(|base| Prio::new(*base))
        .collect(alloc)
}

/// Returns those that are valid, as protocols.
///
/// # Errors
///
/// Returns `AllocError` if out of memory.
fn read_protocols(alloc: Global, protocols: &[CProtocol]) -> Result<Vec<Protocol>, AllocError>
    ensures { IfOk result (λ read. read.items ≡ protocols_meant protocols.now) }
{
    protocols
        .iter()
        .filter_map(|protocol| protocol.read())
        .collect(alloc)
}
