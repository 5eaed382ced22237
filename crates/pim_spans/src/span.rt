//! Stretches of time in which something holds.

use pim_world::Key;

/// What holds since a line and a time.
#[derive(Clone, Copy)]
pub struct Start {
    /// Three numbers that say what holds.
    pub said: Key,
    pub line: u64,
    pub from: u64,
}

/// What held from one time until another, since a line.
#[derive(Clone, Copy)]
pub struct Span {
    /// Three numbers that say what held.
    pub said: Key,
    pub line: u64,
    pub from: u64,
    pub until: u64,
}
