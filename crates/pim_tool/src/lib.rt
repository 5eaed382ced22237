//! The judge of traces, and the runs of scripts.
//!
//! [`judge`] reads a trace from a [`Source`], makes its steps, and writes the report to a [`Sink`]: the reply to each
//! step, the tasks whose priority it changed, and why. It returns the [`Verdict`], or the [`Fault`] that prevented one.
//! [`judge_bytes`] judges a trace in memory, and its contract has no condition. [`run`] reads a script, runs it with a
//! thread for each task, and writes the trace of that run. [`check`] judges that trace, and writes the last line of its
//! report. [`parse`] reads a trace, [`parse_script`] a script, and [`parse_arguments`] the arguments of the command line.
//! [`explain`] says why a line is invalid. [`status`] returns the exit status for an answer.
//!
//! [`Input`] and [`Output`] are streams over the readers and writers of std. No contract names their contents.
//! [`MemoryReader`] and [`MemoryWriter`] are streams in memory, and the contracts name their contents.
//!
//! ```text
//! let text = b"pim 1\ntask 1 10\nmutex 1 protect 40\n1 lock 1\n";
//! let judged = judge_bytes(rt.alloc(), text)?;
//! // judged.report is "1 granted\n  task 1 at 40 ceiling 1\naccepted 1\n", and judged.verdict Verdict::Accepted(1)
//! ```
#![tactic(auto)]

mod command_line;
mod running;
mod scripts;

pub use command_line::{Job, Request, command, parse_arguments};
pub use pim_judge::{
    Failed, Fault, Input, Judged, MemoryReader, MemoryWriter, Output, Sink, Source, StepLine, Text,
    Trouble, Verdict, judge, judge_bytes, parse, parse_script, read_all, status,
};
pub use pim_text::{Kind, NewWord, Reason, explain};
pub use running::{check, run};
