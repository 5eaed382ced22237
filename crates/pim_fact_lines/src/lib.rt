//! Facts as text: what a line says.
//!
//! [`next_line`] splits a text into its lines, [`is_header`] tests the first of them, and
//! [`read_line`] reads any other. It is proved that a [`Line`] is returned for exactly the lines of
//! specs/Lines.antt, which is the table of docs/FACTS.md in definitions. For a line that isn't one
//! of them [`why_not`] says which form it should have; this is tested.
//!
//! ```text
//! let (first, rest) = next_line(b"facts 1\n500 1 granted 7 main.c:41\n"); // is_header(first)
//! let (line, rest) = next_line(rest);
//! read_line(line); // the Fact: at 500 thread 1 was Granted mutex 7; the place isn't kept
//! read_line(b"500 1 granted 0"); // None: no mutex has the number 0
//! ```
#![tactic(auto)]

mod fact;
mod line;
mod malformed;
mod name;
mod reading;
mod text;
mod word;

pub use line::{
    CpuNo, Ended, Level, Line, MAX_CPU, MAX_LEVEL, MAX_NUMBER, MAX_THREAD, MutexNo, ObjectNo,
    Protocol, ThreadNo, What,
};
pub use malformed::{Malformed, why_not};
pub use reading::read_line;
pub use text::{is_header, next_line};
