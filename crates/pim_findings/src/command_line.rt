//! The arguments of the command line.

use clap::{Arg, ArgAction, Command, Error};
use std::alloc::{AllocError, Global};

/// What the arguments ask for.
#[derive(Clone, Copy)]
pub(crate) struct Arguments<'a> {
    /// The file of the facts, if they aren't on standard input.
    pub(crate) file: Option<&'a str>,
    /// Whether to write spans in place of rows.
    pub(crate) spans: bool,
    /// Where the window of time begins and ends, if that is given.
    pub(crate) from: Option<u64>,
    pub(crate) to: Option<u64>,
}

/// The text below the options in `--help`.
const MORE: &str = "\
Facts are what happened to the threads and mutexes of a program, one a line, as any recorder can write them:

    $ cat run.facts
    facts 1
    thread 1 30 high
    thread 2 10 low
    mutex 1 none map_lock
    0 2 granted 1
    1000 1 waits 1
    2500000 2 released 1
    2500000 1 granted 1

Line 1 is 'facts 1'. Then come a thread with its level and its name, and a mutex with its protocol and its name; then
nanoseconds, the thread and what happened to it. Other lines are of objects for which threads wait, of levels and
ceilings that change, and of what the kernel did.

    $ pim-findings run.facts
    wait 6 8 1 1 1000 2499000 30 30 2 10 5 2499000 2499000 0
    inverted 6 1 2 10 2499000
    section 1 1 30 1 0 8 0
    section 2 1 10 1 2500000 5 2500000
    end 8 2500000 1 1 0

A row is a word and numbers. Row 1 says that the wait of line 6 lasted to line 8: thread 1 waited for mutex 1 from 1000
on, for 2499000 ns. Row 2 says that it was inverted for all of that: thread 2 had to run, at level 10, and mutex 1
didn't pass the 30 of thread 1 on to it. Row 5 counts lines, waits, inverted waits and deadlocks.

docs/FACTS.md says exactly which texts are facts, and docs/ROWS.md which rows and which spans follow.

With --spans it writes spans in place of rows: what each thread got, which mutex it owned and awaited, and when it was
inverted or stalled, each from one time to another. --from and --to cut them to a window of time.

Without FILE the facts are on standard input. Rows go to standard output, faults to standard error.
Exit status: 0 no wait was inverted and there is no deadlock at the end, 1 otherwise, always 0 for spans, 2 any fault:
'pim-findings: line <n>: <why>' where line n is the first that is invalid, 'pim-findings: read' or 'pim-findings: write'
where that failed, 'pim-findings: memory' when out of memory; or a wrong command line. If a line is invalid no row
or span is written.";

/// Returns what the arguments ask for. The first argument is the program's name.
///
/// # Errors
///
/// The error has the text to show: help, the version, or what is wrong. It is out of memory if an
/// allocation failed.
pub(crate) fn parse_arguments<'a>(
    alloc: Global,
    words: &'a [&'a str],
) -> Result<Arguments<'a>, Error> {
    let matches = pim_findings(alloc)?.try_get_matches_from(words)?;
    Ok(Arguments {
        file: matches.get_str("file"),
        spans: matches.get_flag("spans"),
        from: matches.get_one("from"),
        to: matches.get_one("to"),
    })
}

/// Returns the program's command line.
fn pim_findings<'a>(alloc: Global) -> Result<Command<'a>, AllocError> {
    let file = Arg::new(alloc, "file")
        .value_name("FILE")
        .help("A text of facts; standard input if it isn't given")
        .action(ArgAction::Set);
    let spans = Arg::new(alloc, "spans")
        .long("spans")
        .help("Write spans in place of rows")
        .action(ArgAction::SetTrue);
    let from = Arg::new(alloc, "from")
        .long("from")
        .value_name("TIME")
        .help("Cut off what is before this time, in nanoseconds; with --spans")
        .value_parser(clap::value_parser!(u64))
        .requires_arg("spans")?;
    let to = Arg::new(alloc, "to")
        .long("to")
        .value_name("TIME")
        .help("Cut off what is after this time, at least that of --from; with --spans")
        .value_parser(clap::value_parser!(u64))
        .requires_arg("spans")?;
    Command::new(alloc, "pim-findings")
        .about(
            "Say what follows from facts: how long threads waited, \
            and which waits a low thread made longer",
        )
        .override_usage("pim-findings [--spans [--from TIME] [--to TIME]] [FILE]")
        .version("0.2.0")
        .after_help(MORE)
        .arg(file)?
        .arg(spans)?
        .arg(from)?
        .arg(to)
}
