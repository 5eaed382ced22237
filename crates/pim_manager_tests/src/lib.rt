//! Tests of the crates that make a manager: pim_base, pim_queue, pim_sets, pim_chain and pim_manager.
//!
//! They call each public function once, with values worked out by hand, and make queues, tables and managers of 0 to
//! 256 tasks. They show what no contract says: a call that may run out of memory succeeds, a step makes as many visits
//! as it needs, and a fault has its text. The scenarios of the steps are texts of suite/.
//!
//! All are in one crate: a crate with tests is proved a second time with them, and each further one has a fixed cost.
#![tactic(auto)]

#[cfg(test)]
mod adopting;
#[cfg(test)]
mod base;
#[cfg(test)]
mod chain;
#[cfg(test)]
mod faults;
#[cfg(test)]
mod kernel;
#[cfg(test)]
mod manager;
#[cfg(test)]
mod priorities;
#[cfg(test)]
mod queue;
#[cfg(test)]
mod rooms;
#[cfg(test)]
mod sets;
#[cfg(test)]
mod sizes;
#[cfg(test)]
mod walks;
