//! The program `pim`: judges traces of mutexes with the POSIX protocols, and runs scripts of them.
//!
//! It parses its arguments with `pim_tool::parse_arguments`, and passes standard input and output to
//! `pim_tool::judge`, `run` or `check`. It turns the answer into a line on standard error, or two if it is asked to
//! explain, and an exit status. All decisions are in `pim_tool`, and are proved there. This crate has only what no
//! contract can say: the streams, the texts and the process.
#![tactic(auto)]

use clap::error::ErrorKind;
use pim_tool::{
    Fault, Input, Job, Kind, MemoryReader, Output, Reason, Request, Sink, Source, Verdict, check,
    explain, judge, parse_arguments, read_all, run, status,
};
use std::alloc::Global;
use std::io;
use std::process::ExitCode;
use std::sync::Wait;
use std::thread::Threads;

/// The exit status for a fault, and for a wrong command line.
const FAULT: u8 = 2;

fn main(rt: HostRuntime) -> ExitCode {
    let ended = match asked(&rt) {
        Ok(Ok(asked)) => {
            let mut reader = Input::new(rt.reader());
            let mut writer = Output::new(io::writer(&rt));
            let answer = answer_to(asked, &rt, rt.alloc(), &mut reader, &mut writer);
            told(&rt, &answer)
        }
        Ok(Err(status)) => Ok(status),
        Err(error) => Err(error),
    };
    match ended {
        Ok(status) => status,
        Err(error) => {
            // If not even this line can be written, the status reports the fault.
            let _unwritten = match error.kind() {
                io::ErrorKind::OutOfMemory => eprintln!(&rt; "pim: {}", Fault::Memory),
                io::ErrorKind::InvalidData => eprintln!(&rt; "pim: an argument is not UTF-8"),
                _ => eprintln!(&rt; "pim: {error}"),
            };
            ExitCode::from(FAULT)
        }
    }
}

/// Returns what the arguments ask for. If they ask for no job it shows a text, and returns the exit status.
///
/// # Errors
///
/// An error if out of memory for the arguments, or if a standard stream can't be written.
fn asked(rt: &HostRuntime) -> io::Result<Result<Request, ExitCode>> {
    let alloc = rt.alloc();
    let arguments: Vec<String> = std::env::args(rt)?.collect(alloc)?;
    let words: Vec<&str> = arguments.iter().map(|word| word.as_str()).collect(alloc)?;
    match parse_arguments(alloc, words.as_slice()) {
        Ok(asked) => Ok(Ok(asked)),
        Err(error) if error.kind() == ErrorKind::OutOfMemory => {
            eprintln!(rt; "pim: {}", Fault::Memory)?;
            Ok(Err(ExitCode::from(FAULT)))
        }
        Err(error) => {
            error.print(rt)?;
            let status = if error.use_stderr() { FAULT } else { 0 };
            Ok(Err(ExitCode::from(status)))
        }
    }
}

/// What the program answers.
#[derive(Drop)]
struct Answer {
    result: Result<Verdict, Fault>,
    /// Why the line of the fault is invalid, if that was asked for.
    reason: Option<Reason>,
}

/// Does what is asked for.
fn answer_to<T: Threads + Wait + Sync, R: Source, W: Sink>(
    asked: Request,
    rt: &T,
    alloc: Global,
    reader: &mut R,
    writer: &mut W,
) -> Answer {
    if asked.explain {
        explained(asked.job, rt, alloc, reader, writer)
    } else {
        Answer {
            result: result_of(asked.job, rt, alloc, reader, writer),
            reason: None,
        }
    }
}

/// Does the job. A run whose trace was printed counts as an accepted trace.
fn result_of<T: Threads + Wait + Sync, R: Source, W: Sink>(
    job: Job,
    rt: &T,
    alloc: Global,
    reader: &mut R,
    writer: &mut W,
) -> Result<Verdict, Fault> {
    match job {
        Job::Judge => judge(alloc, reader, writer),
        Job::Run => run(rt, alloc, reader, writer).map(|()| Verdict::Accepted(0)),
        Job::Check => check(rt, alloc, reader, writer),
    }
}

/// Does the job over a text that is kept, and says why it is invalid.
fn explained<T: Threads + Wait + Sync, R: Source, W: Sink>(
    job: Job,
    rt: &T,
    alloc: Global,
    reader: &mut R,
    writer: &mut W,
) -> Answer {
    let text = match read_all(alloc, reader) {
        Ok(text) => text,
        Err(fault) => {
            return Answer {
                result: Err(fault),
                reason: None,
            };
        }
    };
    let result = result_of(job, rt, alloc, &mut MemoryReader::new(&text), writer);
    let reason = match result {
        Err(Fault::Line(number)) => Some(explain(alloc, &text, number, kind_of(job))),
        _ => None,
    };
    Answer { result, reason }
}

/// Returns what the text of a job is to be.
fn kind_of(job: Job) -> Kind {
    match job {
        Job::Judge => Kind::Trace,
        Job::Run | Job::Check => Kind::Script,
    }
}

/// Writes a fault to standard error, and why if that is known. Returns the exit status for the answer.
fn told(rt: &HostRuntime, answer: &Answer) -> io::Result<ExitCode> {
    if let Err(fault) = &answer.result {
        eprintln!(rt; "pim: {fault}")?;
        if let Some(reason) = answer.reason {
            eprintln!(rt; "pim: {fault}: {reason}")?;
        }
    }
    Ok(ExitCode::from(status(&answer.result)))
}
