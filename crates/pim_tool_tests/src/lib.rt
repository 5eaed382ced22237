//! Tests of the crates from pim_text and pim_shared to pim_tool: each of their public calls once, streams that fail,
//! scenarios of a shared manager as rows, threads that call one, and workers.
//!
//! What texts can show is in suite/, which tests/suite plays on the program. The tests have a crate of their own,
//! since a crate with tests is proved a second time with them.
#![tactic(auto)]

#[cfg(test)]
mod command_words;
#[cfg(test)]
mod failing_ends;
#[cfg(test)]
mod finding;
#[cfg(test)]
mod gates;
#[cfg(test)]
mod gathering;
#[cfg(test)]
mod judged;
#[cfg(test)]
mod library;
#[cfg(test)]
mod looking;
#[cfg(test)]
mod making;
#[cfg(test)]
mod memory;
#[cfg(test)]
mod pages;
#[cfg(test)]
mod rows;
#[cfg(test)]
mod runs;
#[cfg(test)]
mod scenarios;
#[cfg(test)]
mod starting;
#[cfg(test)]
mod streams;
#[cfg(test)]
mod texts;
#[cfg(test)]
mod threads;
#[cfg(test)]
mod waking;
#[cfg(test)]
mod workers;
#[cfg(test)]
mod working;
