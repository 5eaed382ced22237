//! A judge of traces over the plain manager, with the lines, faults and exit statuses of `pim`.
//!
//! It computes each priority and reason from scratch, and `tests/suite` and `tests/program` compare the other
//! implementations with it. No contract says what it prints, apart from those of the functions that it calls.

mod report;

use pim_base::Verdict;
use pim_text::{TextFault, parse};
use report::report_of;
use std::fmt::Display;
use std::io::{self, Read, Write};
use std::process::ExitCode;

/// The exit status for a fault.
const FAULT: u8 = 2;

/// Reads a trace from standard input, and prints its report.
pub fn judge(rt: &HostRuntime) -> ExitCode {
    let mut bytes = Vec::new(rt.alloc());
    if rt.reader().read_to_end(&mut bytes).is_err() {
        return fault(rt, "read");
    }
    let text = match parse(rt.alloc(), &bytes) {
        Ok(text) => text,
        Err(invalid) => return fault(rt, invalid),
    };
    let Ok((page, verdict)) = report_of(rt.alloc(), &text) else {
        return fault(rt, TextFault::Memory);
    };
    if io::writer(rt).write_all(page.as_slice()).is_err() {
        return fault(rt, "write");
    }
    match verdict {
        Verdict::Accepted(_) => ExitCode::from(0),
        Verdict::Rejected(_) => ExitCode::from(1),
    }
}

/// Prints the line of a fault, and returns its status.
fn fault(rt: &HostRuntime, why: impl Display + Drop) -> ExitCode {
    // If the line can't be written, the status reports the fault.
    let _unwritten = eprintln!(rt; "pim: {why}");
    ExitCode::from(FAULT)
}
