//! Sets of the numbers of tasks or mutexes, and notes of the priorities that tasks had.
//!
//! A [`NumberSet`] has a bit for each number. [`OwnedSets`] keeps the mutexes that each task owns, and
//! [`Notes`] the priority that each noted task had. [`Changed`] goes through those whose stored priority is now
//! another one. No set allocates after it is made.
//!
//! ```text
//! let mut set = NumberSet::new();
//! set.insert(300);
//! set.insert(2);
//! // set.iter() gives 2 and 300
//! ```
#![tactic(auto)]

mod bits;
mod changed;
mod notes;
mod number_set;
mod numbered;
mod owned;
mod owned_sets;

pub use changed::Changed;
pub use notes::Notes;
pub use number_set::{NumberSet, Numbers};
pub use numbered::{filled, put};
pub use owned::Owned;
pub use owned_sets::OwnedSets;
