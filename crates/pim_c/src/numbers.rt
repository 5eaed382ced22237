//! The numbers by which C knows replies, refusals, reasons and faults: one table each. A later version adds numbers at
//! the end of a table, and changes none. `c/pim.h` has the same names with `PIM_` before them.

ghost use Rattle.std.specs.Prelude.{◌≡◌};
ghost use Rattle.pim_base.specs.Reports.{refusal_number};
ghost use Rattle.pim_c.specs.Adopting.{fault_number};

use pim_base::Refusal;
use pim_manager::AdoptFault;

// ---- What stands for the kernel where a task asks

pub const KERNEL: u16 = 0;

// ---- Replies to steps

pub const NO_MANAGER: u8 = 0;

pub const GRANTED: u8 = 1;

pub const QUEUED: u8 = 2;

pub const FREED: u8 = 3;

pub const HANDED: u8 = 4;

pub const RELEASED: u8 = 5;

pub const WITHDRAWN: u8 = 6;

pub const SET: u8 = 7;

pub const REFUSED: u8 = 8;

pub const KEPT: u8 = 9;

// ---- Why a step is refused; 0 if it isn't

pub const REFUSED_NO_TASK: u8 = 1;

pub const REFUSED_WAITING: u8 = 2;

pub const REFUSED_NO_MUTEX: u8 = 3;

pub const REFUSED_DEADLOCK: u8 = 4;

pub const REFUSED_CEILING: u8 = 5;

pub const REFUSED_BUSY: u8 = 6;

pub const REFUSED_NOT_OWNER: u8 = 7;

pub const REFUSED_NOT_WAITING: u8 = 8;

pub const REFUSED_PRIORITY: u8 = 9;

pub const REFUSED_TICKETS: u8 = 10;

pub const REFUSED_NOT_PROTECT: u8 = 11;

pub const REFUSED_AGAIN: u8 = 12;

/// Only `pim_set_protocol` returns it.
pub const REFUSED_NO_PROTOCOL: u8 = 13;

/// Only `pim_adopt` returns it.
pub const REFUSED_PROTECT: u8 = 14;

// ---- Why a task has its effective priority

pub const OF_NOTHING: u16 = 0;

pub const OF_BASE: u16 = 1;

pub const OF_CEILING: u16 = 2;

pub const OF_WAITER: u16 = 3;

// ---- Results of pim_make

pub const MADE: u32 = 0;

pub const FAULT_OCCUPIED: u32 = 1;

pub const FAULT_TOO_MANY_TASKS: u32 = 2;

pub const FAULT_TOO_MANY_MUTEXES: u32 = 3;

pub const FAULT_BAD_BASE: u32 = 4;

pub const FAULT_BAD_PROTOCOL: u32 = 5;

pub const FAULT_NO_MEMORY: u32 = 6;

/// Returns the number of the refusal.
pub fn number_of_refusal(refusal: Refusal) -> u8
    ensures { result ≡ refusal_number refusal }
{
    match refusal {
        Refusal::NoTask => REFUSED_NO_TASK,
        Refusal::Waiting => REFUSED_WAITING,
        Refusal::NoMutex => REFUSED_NO_MUTEX,
        Refusal::Deadlock => REFUSED_DEADLOCK,
        Refusal::Ceiling => REFUSED_CEILING,
        Refusal::Busy => REFUSED_BUSY,
        Refusal::NotOwner => REFUSED_NOT_OWNER,
        Refusal::NotWaiting => REFUSED_NOT_WAITING,
        Refusal::Priority => REFUSED_PRIORITY,
        Refusal::Tickets => REFUSED_TICKETS,
        Refusal::NotProtect => REFUSED_NOT_PROTECT,
        Refusal::Again => REFUSED_AGAIN,
    }
}

/// Returns the number of the refusal of `pim_adopt`.
pub fn number_of_adopt_fault(fault: AdoptFault) -> u8
    ensures { result ≡ fault_number fault }
{
    match fault {
        AdoptFault::NoTask => REFUSED_NO_TASK,
        AdoptFault::NoMutex => REFUSED_NO_MUTEX,
        AdoptFault::Protect => REFUSED_PROTECT,
        AdoptFault::Busy => REFUSED_BUSY,
    }
}
