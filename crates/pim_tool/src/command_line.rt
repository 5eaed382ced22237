//! The arguments of the command line.
ghost use Rattle.std.specs.Prelude.{◌≡◌, List, ℕ, map, [], ◌∷◌, codes, IfOk, option_map, true, false};
ghost use Rattle.clap.specs.Simple.{app_of};
ghost use Rattle.pim_tool.specs.Words.{pim_app, job_named, Answers, Asks};

use clap::{Arg, ArgAction, Command, Error};
use std::alloc::{AllocError, Global};

/// What the program is to do.
#[derive(Clone, Copy, Debug, PartialEq, Eq)]
pub enum Job {
    /// Judge the trace on standard input.
    Judge,
    /// Run the script on standard input, a worker for each task, and print the trace.
    Run,
    /// Run the script on standard input, and judge the trace of that run.
    Check,
}

/// What the arguments ask for.
#[derive(Clone, Copy, Debug, PartialEq, Eq)]
pub struct Request {
    /// What the program is to do.
    pub job: Job,
    /// Whether it is to say why a line is invalid.
    pub explain: bool,
}

/// The text below the options in `--help`.
const MORE: &str = "\
To judge a trace: pim < TRACE

    $ printf 'pim 1\\ntask 1 10\\ntask 2 50\\nmutex 1 inherit\\n1 lock 1\\n2 lock 1\\n' | pim
    1 granted
    2 queued
      task 1 at 50 waiter 2 mutex 1
    accepted 2

Line 1 is 'pim 1' or 'pim 2', the version of the text. Then come the tasks with their base priorities, then the
mutexes with their protocols, then the steps, one a line. Tasks are numbered from 1 without a gap, and so are
mutexes. Words are one space apart; there is no blank line, no comment and no carriage return.

Lines: task <n> <base>; mutex <n> none | inherit | protect <ceiling>; <task> lock | try | unlock <mutex>;
<task> release; <task> cancel <task>; <task> base <task> <priority>; and where line 1 is 'pim 2',
<task> ceil <mutex> <ceiling>, and mutex <n> inherit recursive, which its owner may lock up to 255 times.
Limits: priorities and ceilings 1 to 99, 99 the highest; 256 tasks, 256 mutexes, 65536 steps.

A step may end with ' = <reply>', the reply that was recorded; the report ends at the first that differs.
Replies: granted, queued, freed, handed <task>, released <count>, withdrawn, set, refused <name>. The names:
no-task, waiting, no-mutex, deadlock, ceiling, busy, not-owner, not-waiting, priority, tickets; and where line 1 is
'pim 2', kept, and the names not-protect and again.

To run a script, with a thread for each of its tasks, of which there are at most 16: pim run < SCRIPT

    $ printf 'pim 1\\ntask 1 10\\nmutex 1 protect 40\\n1 lock 1\\n' | pim run
    pim 1
    task 1 10
    mutex 1 protect 40
    1 lock 1 = granted
    1 release = released 1

A script has the lines of a trace, but no recorded reply, and each step is that of a declared task. Each task makes
its steps in their order, and then a release; the trace has the version and the declarations of the script, and the
steps of all tasks as they came. To judge it: pim run < SCRIPT | pim judge, or for the last line of that report alone:
pim check < SCRIPT

Input is standard input, results go to standard output, faults to standard error.
Exit status: 0 accepted, 1 rejected, 2 any fault: 'pim: line <n>' where line n is the first that is invalid, with a
second line that says why under --explain, as in pim --explain < TRACE or pim --explain run < SCRIPT;
'pim: read' or 'pim: write' where that failed, 'pim: memory' when out of memory; from run and check also
'pim: too many workers' and 'pim: shared <why>', where the script couldn't be run; or a wrong command line.";

/// Returns the job that the arguments ask for. The first argument is the program's name. The name alone asks for Judge,
/// and the name with just `judge`, `run` or `check` after it asks for that job.
///
/// # Errors
///
/// For those arguments the only error is out of memory. For all others the error has the text to show: help, the
/// version, or what is wrong.
pub fn command<'a>(alloc: Global, words: &'a [&'a str]) -> Result<Job, Error>
    ensures none { (name : List ℕ) → map (λ word. word.now) words.now ≡ name ∷ [] → Answers result Job.Judge }
    ensures judge { (name : List ℕ) → map (λ word. word.now) words.now ≡ name ∷ codes "judge" ∷ []
        → Answers result Job.Judge }
    ensures run { (name : List ℕ) → map (λ word. word.now) words.now ≡ name ∷ codes "run" ∷ []
        → Answers result Job.Run }
    ensures check { (name : List ℕ) → map (λ word. word.now) words.now ≡ name ∷ codes "check" ∷ []
        → Answers result Job.Check }
{
    let asked = parse_arguments(alloc, words)?;
    Ok(asked.job)
}

/// Returns what the arguments ask for. The first argument is the program's name. `--explain` may come before the job.
///
/// # Errors
///
/// As those of [`command`].
pub fn parse_arguments<'a>(alloc: Global, words: &'a [&'a str]) -> Result<Request, Error>
    ensures none { (name : List ℕ) → map (λ word. word.now) words.now ≡ name ∷ [] → Asks result Job.Judge false }
    ensures judge { (name : List ℕ) → map (λ word. word.now) words.now ≡ name ∷ codes "judge" ∷ []
        → Asks result Job.Judge false }
    ensures run { (name : List ℕ) → map (λ word. word.now) words.now ≡ name ∷ codes "run" ∷ []
        → Asks result Job.Run false }
    ensures check { (name : List ℕ) → map (λ word. word.now) words.now ≡ name ∷ codes "check" ∷ []
        → Asks result Job.Check false }
    ensures explain { (name : List ℕ) → map (λ word. word.now) words.now ≡ name ∷ codes "--explain" ∷ []
        → Asks result Job.Judge true }
{
    let matches = pim(alloc)?.try_get_matches_from(words)?;
    Ok(Request {
        job: job_of(matches.subcommand_name()),
        explain: matches.get_flag("explain"),
    })
}

/// Returns the program's command line.
fn pim<'a>(alloc: Global) -> Result<Command<'a>, AllocError>
    ensures { IfOk result (λ command. app_of command ≡ pim_app) }
{
    let explain = Arg::new(alloc, "explain")
        .long("explain")
        .help("Say on a second line why a line is invalid")
        .action(ArgAction::SetTrue);
    let judge = Command::new(alloc, "judge").about("Print the report of a trace (the default)");
    let run = Command::new(alloc, "run").about("Run a script and print its trace");
    let check = Command::new(alloc, "check").about("Run a script and judge its trace");
    Command::new(alloc, "pim")
        .about(
            "Judge traces of mutexes with the POSIX protocols: say which task executes at which priority, and why",
        )
        .version("0.2.0")
        .after_help(MORE)
        .arg(explain)?
        .subcommand(judge)?
        .subcommand(run)?
        .subcommand(check)
}

/// Returns the job that a subcommand names, or Judge if there is no subcommand.
fn job_of(subcommand: Option<&str>) -> Job
    ensures { result ≡ job_named (option_map (λ name. name.now) subcommand.entry) }
{
    match subcommand {
        Some("run") => Job::Run,
        Some("check") => Job::Check,
        _ => Job::Judge,
    }
}
