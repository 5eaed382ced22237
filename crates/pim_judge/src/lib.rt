//! The judge of traces: it reads a trace, makes its steps, and writes the report.
//!
//! [`judge`] reads a trace from a [`Source`], makes its steps, and writes the report to a [`Sink`]: the reply to each
//! step, the tasks whose priority it changed, and why. It returns the [`Verdict`], or the [`Fault`] that prevented one.
//! [`judge_bytes`] judges a trace in memory, and its contract has no condition. [`parse`] reads a trace and
//! [`parse_script`] a script. [`status`] returns the exit status for an answer.
//!
//! [`Input`] and [`Output`] are streams over the readers and writers of std. No contract names their contents.
//! [`MemoryReader`] and [`MemoryWriter`] are streams in memory, and the contracts name their contents.
//!
//! Other crates print with a [`Printer`], read with [`read_all`], and make the manager of a text with [`manager_of`].
//! A run is a list of entries, steps with the replies to them. [`print_trace`] writes it as a trace, [`judge_entries`]
//! compares its replies with the model's, and [`print_verdict`] writes the last line of a report.
//!
//! ```text
//! let text = b"pim 1\ntask 1 10\nmutex 1 protect 40\n1 lock 1\n";
//! let judged = judge_bytes(rt.alloc(), text)?;
//! // judged.report is "1 granted\n  task 1 at 40 ceiling 1\naccepted 1\n", and judged.verdict Verdict::Accepted(1)
//! ```
#![tactic(auto)]

mod entries;
mod fault;
mod judging;
mod printer;
mod reading;
mod report;
mod trace;
mod transfer;

pub use entries::{judge_entries, print_verdict};
pub use fault::Fault;
pub use judging::{Judged, judge, judge_bytes, manager_of, status};
pub use pim_base::{StepLine, Verdict};
pub use pim_page::{Failed, Input, MemoryReader, MemoryWriter, Output, Sink, Source, Trouble};
pub use pim_text::Text;
pub use printer::Printer;
pub use reading::{parse, parse_script};
pub use trace::print_trace;
pub use transfer::read_all;
