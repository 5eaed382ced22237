//! Changes that are no steps.

ghost use Rattle.std.specs.Prelude.{◌≡◌};
ghost use Rattle.pim_manager.specs.Adopting.{adopt_fault};
ghost use Rattle.pim_c.specs.Adopting.{adopt_answer, adopted, after_adopt, granted_or_refused};
ghost use Rattle.pim_c.specs.Changing.{after_protocol, c_protocol_refusal, protocol_answer, reprotocoled, set_or_refused};

use crate::answer::CAnswer;
use crate::handle::Handle;
use crate::numbers::{REFUSED_NO_PROTOCOL, number_of_adopt_fault};
use pim_base::{MutexNo, Reply, TaskNo};
use pim_ffi::CProtocol;
use pim_manager::TrackedManager;
use std::alloc::Global;

/// Gives a free mutex the protocol of this kind, as where a mutex is destroyed and another one is initialized in its
/// place. The ceiling is read for a PROTECT mutex alone. No priority changes.
#[unsafe(no_mangle)]
pub extern "C" fn pim_set_protocol(
    alloc: Global,
    handle: &mut Handle,
    mutex: u16,
    kind: u16,
    ceiling: u16,
) -> CAnswer
    ensures answer { result ≡ protocol_answer handle.old.held mutex (record { kind = kind; ceiling = ceiling }) }
    ensures state { handle.new.held ≡ after_protocol handle.old.held mutex (record { kind = kind; ceiling = ceiling }) }
{
    let Some(mut held) = handle.take(alloc) else {
        return CAnswer::none();
    };
    let answer = set_protocol(&mut held, MutexNo(mutex), CProtocol { kind, ceiling });
    handle.put(held);
    answer
}

/// Gives a free mutex this protocol. Changes nothing if that is refused.
fn set_protocol(held: &mut TrackedManager, mutex: MutexNo, protocol: CProtocol) -> CAnswer
    ensures answer { result ≡ set_or_refused (c_protocol_refusal held.old.state mutex protocol) }
    ensures state { held.new ≡ reprotocoled held.old mutex protocol }
{
    let Some(protocol) = protocol.read() else {
        return CAnswer::refused(REFUSED_NO_PROTOCOL);
    };
    match held.set_protocol(mutex, protocol) {
        Ok(()) => CAnswer::of(Reply::Set, 0),
        Err(refusal) => CAnswer::of(Reply::Refused(refusal), 0),
    }
}

/// Makes the task the owner of a free NONE or INHERIT mutex, even while the task waits: as where it has owned the mutex
/// since before libpim had to know of it. No priority changes.
#[unsafe(no_mangle)]
pub extern "C" fn pim_adopt(alloc: Global, handle: &mut Handle, task: u16, mutex: u16) -> CAnswer
    ensures answer { result ≡ adopt_answer handle.old.held task mutex }
    ensures state { handle.new.held ≡ after_adopt handle.old.held task mutex }
{
    let Some(mut held) = handle.take(alloc) else {
        return CAnswer::none();
    };
    let answer = adopt(&mut held, TaskNo(task), MutexNo(mutex));
    handle.put(held);
    answer
}

/// Makes the task the owner of the free mutex. Changes nothing if that is refused.
fn adopt(held: &mut TrackedManager, task: TaskNo, mutex: MutexNo) -> CAnswer
    ensures answer { result ≡ granted_or_refused (adopt_fault held.old.state task mutex) }
    ensures state { held.new ≡ adopted held.old task mutex }
{
    match held.adopt(task, mutex) {
        Ok(()) => CAnswer::of(Reply::Granted, 0),
        Err(fault) => CAnswer::refused(number_of_adopt_fault(fault)),
    }
}
