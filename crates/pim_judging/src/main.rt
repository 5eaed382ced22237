//! The part of the program `pim` that judges a trace, as a program of its own that is proved and built sooner.
//!
//! It passes standard input and output to `pim_judge::judge`, and turns the answer into a line on standard error and an
//! exit status, as `pim` does. It reads no arguments. This crate has only what no contract can say: the streams and the
//! process.
#![tactic(auto)]

use pim_judge::{Input, Output, judge, status};
use std::io;
use std::process::ExitCode;

fn main(rt: HostRuntime) -> ExitCode {
    let mut reader = Input::new(rt.reader());
    let mut writer = Output::new(io::writer(&rt));
    let answer = judge(rt.alloc(), &mut reader, &mut writer);
    if let Err(fault) = answer {
        // If the line can't be written, the status reports the fault.
        let _unwritten = eprintln!(&rt; "pim: {fault}");
    }
    ExitCode::from(status(&answer))
}
