//! What happened by the lines of a text of facts so far, and which line may follow.
//!
//! A [`World`] is what the lines so far say. `read` reads the next one, if it is valid: that
//! exactly, by specs/Texts.antt, which is docs/FACTS.md in definitions. `go` goes on by it. A
//! [`FactsFault`] names the first invalid line of a text, and why it is one. A [`Standing`] is what
//! holds of a thread that waits: whether it is inverted, and by which threads.
//!
//! ```text
//! let mut world = World::new(alloc);
//! world.read(b"500 1 granted 1"); // Err(Refused(NoThread)): thread 1 isn't declared
//! let line = world.read(b"thread 1 30 high")?;
//! world.go(alloc, &line)?;
//! ```
#![tactic(auto)]

mod fault;
mod going;
mod kernel;
mod kernel_known;
mod laws;
mod refusal;
mod refusing;
mod showing;
mod standing;
mod text;
mod world;

pub use fault::{FactsFault, Why};
pub use kernel::{KernelEvents, Off};
pub use laws::{first_invalid_line_law, steady_law};
pub use refusal::Refusal;
pub use standing::{Key, Standing};
pub use world::World;
