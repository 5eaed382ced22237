//! The limits of a manager, of a text, of workers and lookers, each under one name.

/// The most tasks that a manager has, and that a text declares.
pub const MAX_TASKS: usize = 256;

/// The most mutexes that a manager has, and that a text declares.
pub const MAX_MUTEXES: usize = 256;

/// The most step lines that a text has.
pub const MAX_STEPS: usize = 65_536;

/// The most workers that run scripts at the same time, and so the most tasks of a script.
pub const MAX_WORKERS: usize = 16;

/// The most lookers of a shared manager.
pub const MAX_LOOKERS: u16 = 8;

/// The last version of the text; the first is 1.
pub const LAST_VERSION: u8 = 2;

/// The most times that the owner of a recursive mutex has locked it and not yet unlocked it.
pub const MAX_COUNT: u8 = 255;

/// The last ticket that is given out; where the next one would be above it, none is left.
pub const LAST_TICKET: u64 = u64::MAX - 1;
