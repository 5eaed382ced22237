//! What the tests and measurements of the manager run, a job for each argument.
//!
//! `pim_soak SECONDS [SEED]` generates tasks, mutexes and a script for each task. It runs the scripts, each by a worker in
//! its own thread, while 8 wait-free readers read all the time. It makes the steps of the log again on the plain manager,
//! and compares each reply, each read and the final manager. Then it generates the next scripts. Once a second it reports
//! its progress on standard error. At the end it prints one line: the numbers of scripts, steps, reads and differences.
//! The status is 0 without a difference, else 1. The scripts with number k have the seed SEED + k. Each difference is
//! reported with its seed, which finds it again as far as the schedule of the threads allows.
//!
//! | Job | What it does |
//! |---|---|
//! | `planted SEED` | runs the scripts of one seed several times, each time with another mistake put into what is compared, and prints how many differences it finds |
//! | `opposite` | runs the scripts of 16 tasks that lock two mutexes in opposite orders, and prints the same line |
//! | `judge` | reads a trace, and prints the report that the plain manager gives |
//! | `allocations [CALL]` | prints the calls that allocate, or makes one of them |
//! | `bench full`, `bench small` | prints how fast readers read and threads call; `small` takes a moment, and says nothing about speed |
#![tactic(auto)]

mod allocations;
mod bench;
mod crowd;
mod figures;
mod lookers;
mod plain_judge;
mod planted;
mod replay;
mod scene;
mod trial;

use crate::allocations::Call;
use crate::bench::{Amount, print_rates};
use crate::figures::Figures;
use crate::planted::Planted;
use crate::scene::Scene;
use crate::trial::trial;
use pim_base::MAX_LOOKERS;
use pim_shared::SharedFault;
use std::alloc::Global;
use std::io;
use std::process::ExitCode;
use std::rt::Clock;
use std::sync::Wait;
use std::thread::Threads;
use std::time::{Duration, Instant};

/// The exit status after a difference.
const DIFFERS: u8 = 1;

/// The exit status for wrong arguments.
const FAULT: u8 = 2;

/// What the program is asked for.
#[derive(Clone, Copy)]
enum Job {
    /// Scripts for this number of seconds, from this seed on.
    Soak(u64, u64),
    /// Mistakes in the run of this seed.
    Planted(u64),
    /// The scripts in opposite orders.
    Opposite,
    /// The report of a trace.
    Judge,
    /// The names of the calls that allocate.
    Calls,
    /// A call that allocates.
    Allocations(Call),
    /// Rates of reads and calls.
    Bench(Amount),
}

fn main(rt: HostRuntime) -> io::Result<ExitCode> {
    let words: Vec<String> = std::env::args(&rt)?.collect(rt.alloc())?;
    match job_of(&words) {
        Some(Job::Soak(seconds, seed)) => soak_and_print(&rt, rt.alloc(), seconds, seed),
        Some(Job::Planted(seed)) => print_planted(&rt, rt.alloc(), seed),
        Some(Job::Opposite) => print_opposite(&rt, rt.alloc()),
        Some(Job::Judge) => Ok(plain_judge::judge(&rt)),
        Some(Job::Calls) => print_calls(&rt),
        Some(Job::Allocations(call)) => make_call(&rt, rt.alloc(), call),
        Some(Job::Bench(amount)) => {
            print_rates(&rt, rt.alloc(), amount)?;
            Ok(ExitCode::from(0))
        }
        None => {
            eprintln!(&rt;
                "pim_soak SECONDS [SEED] | planted SEED | opposite | judge | allocations [CALL] | bench full | bench small"
            )?;
            Ok(ExitCode::from(FAULT))
        }
    }
}

/// Returns what the command line asks for, or None if the arguments are wrong. The seed is 1 if it is missing.
fn job_of(words: &[String]) -> Option<Job> {
    match words {
        [_program, job] => job_of_one(job.as_str()),
        [_program, job, argument] => job_of_two(job.as_str(), argument.as_str()),
        _ => None,
    }
}

/// Returns the job of one argument.
fn job_of_one(job: &str) -> Option<Job> {
    if job == "opposite" {
        Some(Job::Opposite)
    } else if job == "judge" {
        Some(Job::Judge)
    } else if job == "allocations" {
        Some(Job::Calls)
    } else {
        Some(Job::Soak(job.parse().ok()?, 1))
    }
}

/// Returns the job of two arguments.
fn job_of_two(job: &str, argument: &str) -> Option<Job> {
    if job == "planted" {
        Some(Job::Planted(argument.parse().ok()?))
    } else if job == "bench" {
        Some(Job::Bench(amount_of(argument)?))
    } else if job == "allocations" {
        Some(Job::Allocations(call_of(argument)?))
    } else {
        Some(Job::Soak(job.parse().ok()?, argument.parse().ok()?))
    }
}

/// Returns how much is measured.
fn amount_of(name: &str) -> Option<Amount> {
    if name == "full" {
        Some(Amount::Full)
    } else if name == "small" {
        Some(Amount::Small)
    } else {
        None
    }
}

/// Returns the call of this name.
fn call_of(name: &str) -> Option<Call> {
    for call in Call::ALL {
        if call.name() == name {
            return Some(call);
        }
    }
    None
}

/// Prints the names of the calls that allocate.
fn print_calls<R: Print>(rt: &R) -> io::Result<ExitCode> {
    for call in Call::ALL {
        println!(rt; "{}", call.name())?;
    }
    Ok(ExitCode::from(0))
}

/// Makes a call that allocates, and prints how it fails, if it does.
fn make_call<R: Threads + Wait + Sync + Eprint>(
    rt: &R,
    alloc: Global,
    call: Call,
) -> io::Result<ExitCode> {
    match call.make(rt, alloc) {
        Ok(()) => Ok(ExitCode::from(0)),
        Err(failure) => {
            eprintln!(rt; "{failure}")?;
            Ok(ExitCode::from(DIFFERS))
        }
    }
}

/// Runs scripts for this number of seconds, and prints the figures.
fn soak_and_print<R: Threads + Wait + Sync + Clock + Print + Eprint>(
    rt: &R,
    alloc: Global,
    seconds: u64,
    seed: u64,
) -> io::Result<ExitCode> {
    let figures = soak(rt, alloc, Duration::from_secs(seconds), seed)?;
    print_figures(rt, &figures)
}

/// Prints the figures, and returns the status for them.
fn print_figures<R: Print>(rt: &R, figures: &Figures) -> io::Result<ExitCode> {
    println!(rt; "{figures}")?;
    Ok(ExitCode::from(if figures.differences == 0 { 0 } else { DIFFERS }))
}

/// Runs the scripts in opposite orders, and prints the figures, or the fault of the run.
fn print_opposite<R: Threads + Wait + Sync + Print + Eprint>(
    rt: &R,
    alloc: Global,
) -> io::Result<ExitCode> {
    match opposite(rt, alloc) {
        Ok(figures) => print_figures(rt, &figures),
        Err(fault) => {
            eprintln!(rt; "the scripts in opposite orders: {fault}")?;
            Ok(ExitCode::from(DIFFERS))
        }
    }
}

/// Runs the scripts in opposite orders.
///
/// # Errors
///
/// Those of `trial`.
fn opposite<R: Threads + Wait + Sync>(rt: &R, alloc: Global) -> Result<Figures, SharedFault> {
    let scene = Scene::opposite(alloc)?;
    trial(rt, alloc, &scene, MAX_LOOKERS, Planted::Nothing)
}

/// Runs the scripts of the seed once for each mistake, and prints the number of differences.
fn print_planted<R: Threads + Wait + Sync + Print>(
    rt: &R,
    alloc: Global,
    seed: u64,
) -> io::Result<ExitCode> {
    for planted in Planted::ALL {
        match drawn(rt, alloc, seed, planted) {
            Ok(found) => println!(rt; "{} {}", planted.name(), found.differences)?,
            Err(fault) => println!(rt; "{} {fault}", planted.name())?,
        }
    }
    Ok(ExitCode::from(0))
}

/// Runs scripts for this time, and reports its progress on standard error.
///
/// # Errors
///
/// A clock or a standard error that fails.
fn soak<R: Threads + Wait + Sync + Clock + Eprint>(
    rt: &R,
    alloc: Global,
    time: Duration,
    seed: u64,
) -> io::Result<Figures> {
    let begin = Instant::now(rt)?;
    let mut told = 0;
    let mut figures = Figures::default();
    for number in 0..u64::MAX {
        let elapsed = begin.elapsed(rt)?;
        if elapsed >= time {
            break;
        }
        if elapsed.as_secs() > told {
            told = elapsed.as_secs();
            eprintln!(rt; "{told} s: {figures}")?;
        }
        let seed = seed.wrapping_add(number);
        match drawn(rt, alloc, seed, Planted::Nothing) {
            Ok(found) => {
                if found.differences > 0 {
                    eprintln!(rt; "the scripts of seed {seed}: {found}")?;
                }
                figures.add(&found);
            }
            Err(fault) => {
                eprintln!(rt; "the scripts of seed {seed}: {fault}")?;
                figures.expect(false);
                break;
            }
        }
    }
    Ok(figures)
}

/// Runs the scripts of this seed, and puts this mistake into what is compared.
///
/// # Errors
///
/// Those of `trial`.
fn drawn<R: Threads + Wait + Sync>(
    rt: &R,
    alloc: Global,
    seed: u64,
    planted: Planted,
) -> Result<Figures, SharedFault> {
    let scene = Scene::random(alloc, seed)?;
    trial(rt, alloc, &scene, MAX_LOOKERS, planted)
}
