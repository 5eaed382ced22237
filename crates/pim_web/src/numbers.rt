//! The numbers that the host knows verdicts, faults and operations by.

// ---- Verdicts and faults

/// No recorded reply differs. If `pim_read` returns it, the text is valid.
pub const ACCEPTED: u32 = 0;

/// A recorded reply differs.
pub const REJECTED: u32 = 1;

/// A line is invalid.
pub const INVALID: u32 = 2;

/// An allocation failed.
pub const NO_MEMORY: u32 = 3;

// ---- Operations

pub const LOCK: u16 = 1;

pub const TRY: u16 = 2;

pub const UNLOCK: u16 = 3;

pub const RELEASE: u16 = 4;

pub const CANCEL: u16 = 5;

pub const BASE: u16 = 6;

pub const CEILING: u16 = 7;
