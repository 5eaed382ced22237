//! The words of the command line, and what is said of wrong ones.

use clap::error::ErrorKind;
use pim_tool::{Job, command};
use std::alloc::AllocGlobal;
use std::process::Abort;
use std::test::Fail;

/// The program's name and the word behind it, and the job that they name.
const JOBS: &[(&[&str], Job)] = &[
    (&["pim"], Job::Judge),
    (&["bin/pim", "judge"], Job::Judge),
    (&["pim", "run"], Job::Run),
    (&["", "check"], Job::Check),
];

#[test]
fn words_name_the_job(rt: HostRuntime) {
    for (words, job) in JOBS {
        assert!(rt; command(rt.alloc(), words).ok() == Some(*job), "{words:?}");
    }
}

/// What help says, among other things.
const TAUGHT: &[&str] = &[
    "Usage: pim [OPTIONS] [COMMAND]\n",
    "      --explain  Say on a second line why a line is invalid\n",
    "task <n> <base>; mutex <n> none | inherit | protect <ceiling>",
    "where line 1 is 'pim 2',\n<task> ceil <mutex> <ceiling>, and mutex <n> inherit recursive, which",
    "where line 1 is\n'pim 2', kept, and the names not-protect and again.\n",
    "    $ printf 'pim 1\\ntask 1 10\\ntask 2 50\\nmutex 1 inherit\\n1 lock 1\\n2 lock 1\\n' | pim\n",
    "    2 queued\n      task 1 at 50 waiter 2 mutex 1\n    accepted 2\n",
    "    $ printf 'pim 1\\ntask 1 10\\nmutex 1 protect 40\\n1 lock 1\\n' | pim run\n    pim 1\n",
    "    1 lock 1 = granted\n    1 release = released 1\n",
    "pim run < SCRIPT | pim judge",
    "Exit status: 0 accepted, 1 rejected, 2 any fault",
];

/// The version.
const VERSION: &[&str] = &["pim 0.2.0\n"];

/// Words that name no job, the kind of their error, and parts of its text.
type NoJob = (&'static [&'static str], ErrorKind, &'static [&'static str]);

/// Words that ask for something, which isn't written to standard error.
const ASKED: &[NoJob] = &[
    (&["pim", "--help"], ErrorKind::DisplayHelp, TAUGHT),
    (&["pim", "-h"], ErrorKind::DisplayHelp, TAUGHT),
    (&["pim", "help"], ErrorKind::DisplayHelp, TAUGHT),
    (&["pim", "--version"], ErrorKind::DisplayVersion, VERSION),
    (&["pim", "-V"], ErrorKind::DisplayVersion, VERSION),
];

const UNKNOWN: ErrorKind = ErrorKind::UnknownArgument;

/// Wrong words.
const WRONG: &[NoJob] = &[
    (
        &["pim", "jugde"],
        ErrorKind::InvalidSubcommand,
        &["error: unrecognized subcommand 'jugde'\n", "'judge'"],
    ),
    (
        &["pim", "check", "--fast"],
        UNKNOWN,
        &["error: unexpected argument '--fast' found\n"],
    ),
    (
        &["pim", "judge", "trace.pim"],
        UNKNOWN,
        &["error: unexpected argument 'trace.pim' found\n"],
    ),
];

/// The text has each of the parts.
fn expect_contained(rt: &impl Abort, text: &str, parts: &[&str]) {
    for part in parts {
        assert!(rt; text.contains(part), "{part} in {text}");
    }
}

/// The words are an error of this row, which is for standard error or not.
fn expect_error(rt: &(impl Abort + AllocGlobal), row: &NoJob, is_fault: bool) -> Result<(), Fail> {
    let (words, kind, parts) = row;
    let Err(error) = command(rt.alloc(), words) else {
        return Err(Fail::from("the words name a job"));
    };
    let is_said = error.kind() == *kind && error.use_stderr() == is_fault;
    let text = format!(in rt.alloc(); "{error}")?;
    drop(error);
    expect_contained(rt, text.as_str(), parts);
    drop(text);
    assert!(rt; is_said, "{words:?}");
    Ok(())
}

#[test]
fn help_teaches_the_text_and_wrong_words_are_named(rt: HostRuntime) -> Result<(), Fail> {
    for row in ASKED {
        expect_error(&rt, row, false)?;
    }
    for row in WRONG {
        expect_error(&rt, row, true)?;
    }
    Ok(())
}
