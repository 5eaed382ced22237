//! Who owns and awaits what, and what each thread gets.
//!
//! [`Waits`] is a state of the model: threads with levels, mutexes with protocols, owners and
//! waits. There may be any number of mutexes, a thread may wait for a free one, and waits may form
//! cycles: it describes what a program did, right or wrong. Threads and mutexes are known by their
//! [`ThreadPlace`] and [`MutexPlace`], in the order in which they were added.
#![tactic(auto)]

mod component;
mod facts;
mod gather;
mod groups;
mod laws;
mod own;
mod place;
mod seeds;
mod settle;
mod waits;
mod way;

pub use laws::{blame_law, idle_owner_law, passing_law, runner_law};
pub use place::{MutexPlace, ThreadPlace, nth, put};
pub use waits::Waits;
