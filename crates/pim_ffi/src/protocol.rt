//! The protocol of a mutex.

ghost use Rattle.std.specs.Prelude.{◌≡◌};
ghost use Rattle.pim_ffi.specs.Protocols.{c_protocol, no_protocol, protocol_meant};

use crate::numbers::{INHERIT, INHERIT_RECURSIVE, NONE, PROTECT, UNKNOWN};
use pim_base::{Prio, Protocol};

/// The protocol of a mutex, in C.
#[repr(C)]
#[derive(Clone, Copy, Debug, PartialEq, Eq)]
pub struct CProtocol {
    /// The number of the protocol.
    pub kind: u16,
    /// The ceiling of a PROTECT mutex. For other mutexes it isn't read.
    pub ceiling: u16,
}

impl CProtocol {
    /// Returns the protocol of an unknown mutex.
    pub fn none() -> CProtocol
        ensures { result ≡ no_protocol }
    {
        CProtocol {
            kind: UNKNOWN,
            ceiling: 0,
        }
    }

    /// Returns this protocol.
    pub fn of(protocol: Protocol) -> CProtocol
        ensures { result ≡ c_protocol protocol }
    {
        match protocol {
            Protocol::None => CProtocol {
                kind: NONE,
                ceiling: 0,
            },
            Protocol::Inherit => CProtocol {
                kind: INHERIT,
                ceiling: 0,
            },
            Protocol::Protect(ceiling) => CProtocol {
                kind: PROTECT,
                ceiling: ceiling.get(),
            },
            Protocol::InheritRecursive => CProtocol {
                kind: INHERIT_RECURSIVE,
                ceiling: 0,
            },
        }
    }

    /// Returns this as a protocol, or `None` if the kind is unknown or the ceiling of a PROTECT mutex isn't a priority.
    pub fn read(self) -> Option<Protocol>
        ensures { result ≡ protocol_meant self }
    {
        if self.kind == NONE {
            Some(Protocol::None)
        } else if self.kind == INHERIT {
            Some(Protocol::Inherit)
        } else if self.kind == PROTECT {
            Some(Protocol::Protect(Prio::new(self.ceiling)?))
        } else if self.kind == INHERIT_RECURSIVE {
            Some(Protocol::InheritRecursive)
        } else {
            None
        }
    }
}
