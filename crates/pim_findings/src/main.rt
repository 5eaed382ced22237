//! The program `pim-findings`: says what follows from a text of facts.
//!
//! It passes standard input or a file, and standard output, to `print_findings` or `print_spans`,
//! which read the text and write its rows or its spans. Their contracts say what is written:
//! `pim_rows` and `pim_spans` find it, and all of that is proved. `main` has only what no contract
//! can say: the streams, the texts and the process.
#![tactic(auto)]

mod command_line;
mod fault;
mod printing;
mod spans;
mod transfer;

use crate::command_line::{Arguments, parse_arguments};
use crate::fault::Fault;
use crate::printing::print_findings;
use crate::spans::print_spans;
use clap::error::ErrorKind;
use pim_page::{Input, Output, Source};
use pim_spans::Window;
use std::fmt::Display;
use std::process::ExitCode;
use std::rt::Files;
use std::{env, fs, io};

/// The exit status for a fault, and for a wrong command line.
const FAULT: u8 = 2;

fn main(rt: HostRuntime) -> ExitCode {
    match work(&rt) {
        Ok(status) => ExitCode::from(status),
        Err(error) => {
            // If not even this line can be written, the status reports the fault.
            let _unwritten = match error.kind() {
                io::ErrorKind::OutOfMemory => eprintln!(&rt; "pim-findings: {}", Fault::Memory),
                io::ErrorKind::InvalidData => {
                    eprintln!(&rt; "pim-findings: an argument is not UTF-8")
                }
                _ => eprintln!(&rt; "pim-findings: {error}"),
            };
            ExitCode::from(FAULT)
        }
    }
}

/// Does what the arguments ask for: writes rows, or shows a text. Returns the exit status.
///
/// # Errors
///
/// An error if out of memory for the arguments, or if standard error can't be written.
fn work(rt: &HostRuntime) -> io::Result<u8> {
    let alloc = rt.alloc();
    let arguments: Vec<String> = env::args(rt)?.collect(alloc)?;
    let words: Vec<&str> = arguments.iter().map(|word| word.as_str()).collect(alloc)?;
    match parse_arguments(alloc, words.as_slice()) {
        Ok(arguments) => answer(rt, &arguments),
        Err(error) if error.kind() == ErrorKind::OutOfMemory => report(rt, Fault::Memory),
        Err(error) => {
            error.print(rt)?;
            Ok(if error.use_stderr() { FAULT } else { 0 })
        }
    }
}

/// Writes what the arguments ask for. Returns the exit status.
fn answer(rt: &HostRuntime, arguments: &Arguments<'_>) -> io::Result<u8> {
    let window = Window {
        from: arguments.from.unwrap_or(0),
        until: arguments.to.unwrap_or(u64::MAX),
    };
    if window.until < window.from {
        return report(rt, "--from is after --to");
    }
    match arguments.file {
        None => print(rt, &mut Input::new(rt.reader()), arguments.spans, window),
        Some(path) => match fs::open(rt, path) {
            Ok(file) => print(rt, &mut Input::new(file), arguments.spans, window),
            Err(_) => report(rt, format_args!("{path}: it can't be read")),
        },
    }
}

/// Writes the rows or the spans of a text, or its fault. Returns the exit status.
fn print<R: Source>(
    rt: &HostRuntime,
    reader: &mut R,
    spans: bool,
    window: Window,
) -> io::Result<u8> {
    let mut writer = Output::new(io::writer(rt));
    let result = if spans {
        print_spans(rt.alloc(), reader, &mut writer, window)
    } else {
        print_findings(rt.alloc(), reader, &mut writer)
    };
    match result {
        Ok(status) => Ok(status),
        Err(fault) => report(rt, fault),
    }
}

/// Writes a fault to standard error, and returns the exit status for it.
fn report(rt: &HostRuntime, fault: impl Display + Drop) -> io::Result<u8> {
    eprintln!(rt; "pim-findings: {fault}")?;
    Ok(FAULT)
}
