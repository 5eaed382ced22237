//! What libpim and the page's module share: the protocol of a mutex in C, and lists that are copied to memory of the
//! caller.
//!
//! ```text
//! CProtocol::of(protocol).read() == Some(protocol)
//! ```
#![tactic(auto)]

mod numbers;
mod protocol;

pub use numbers::{INHERIT, INHERIT_RECURSIVE, NONE, PROTECT, UNKNOWN};
pub use protocol::CProtocol;
