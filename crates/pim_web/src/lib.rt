//! The judge for a WebAssembly host, such as a web page: bytes in, bytes out.
//!
//! The host puts a text and empty buffers into the module's memory. `pim_judge` writes the report, and `pim_read` writes
//! what the text declares and asks for, as numbers for libpim's calls. `pim_explain` writes why a line is invalid. No
//! function requires anything, and none keeps memory.
//!
//! ```text
//! pim_judge(text, length, report, room); // ACCEPTED, how many steps, how many bytes the report has
//! ```
#![tactic(auto)]

mod explaining;
mod judged;
mod judging;
mod numbers;
mod parts;
mod reading;
