//! The numbers by which C knows protocols. A later version adds numbers at the end, and changes none. `c/pim.h` has the
//! same names with `PIM_` before them.

pub const NONE: u16 = 0;

pub const INHERIT: u16 = 1;

pub const PROTECT: u16 = 2;

pub const INHERIT_RECURSIVE: u16 = 3;

/// Returned as the owner and the kind of protocol of an unknown mutex, and as the mutex that an unknown task waits for.
pub const UNKNOWN: u16 = 65535;
