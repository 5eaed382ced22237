//! Runs of scripts: a worker for each task, and the trace of the run.
ghost use Rattle.std.specs.Prelude.{◌≡◌, ◌≤◌, [], length, Some, IfOk, IfErr, IfSome};
ghost use Rattle.pim_base.specs.Texts.{lines_of};
ghost use Rattle.pim_base.specs.State.{State};
ghost use Rattle.pim_base.specs.Runs.{IsRun};
ghost use Rattle.pim_base.specs.declared.limits.TheConstants.{MAX_WORKERS};
ghost use Rattle.pim_base.specs.Recordings.{IsRunOf};
ghost use Rattle.pim_text.specs.Reading.{trace_of};
ghost use Rattle.pim_tool.specs.Running.{IsRunnable, SpellsRunnable, IsTraceOfRun, IsEndOfReport, IsVerdictOfRun};
ghost use Rattle.pim_tool.specs.Running.{Unread, IsOfRun, Wrote, StandsAfter, call};

use crate::scripts::scripts_of;
use pim_base::{MAX_WORKERS, Op, Verdict};
use pim_judge::{
    Fault, Sink, Source, judge_entries, manager_of, parse_script, print_trace, print_verdict,
    read_all,
};
use pim_manager::Manager;
use pim_shared::{Log, Shared, gather, run_scripts};
use pim_text::Text;
use std::alloc::Global;
use std::sync::Wait;
use std::thread::Threads;

/// Reads a script to its end, runs it with a thread for each task, and writes the trace of that run. The trace has the
/// reply to each step, in the order in which the steps were made, and a release of each task after its last line.
/// [`judge`](crate::judge) accepts it if it has at most 65,536 steps.
///
/// The clauses on bytes hold for streams whose contents are known, such as `MemoryReader` and `MemoryWriter`.
/// Nothing is written before the run has finished. No contract promises an order of the threads, nor that each of them
/// finishes.
///
/// # Errors
///
/// `Fault::Line(n)` if line n, counted from 1, is the first that is invalid in a script, else `Fault::TooManyWorkers`
/// above 16 tasks; `Fault::Read` or `Fault::Write` if a read or a write of this call failed; `Fault::Shared` if the
/// script couldn't be run; `Fault::Memory` if out of memory.
pub fn run<T: Threads + Wait + Sync, R: Source, W: Sink>(
    rt: &T,
    alloc: Global,
    reader: &mut R,
    writer: &mut W,
) -> Result<(), Fault>
    // The bytes are a script of at most 16 tasks. The trace of a run of it was written, and nothing else.
    ensures ok { IfOk result (λ _. Wrote IsTraceOfRun
        (call R.remaining R.failures W.told reader.old reader.new writer.old writer.new)) }

    // The reader is at its end.
    ensures end { IfOk result (λ _. IfSome (R.remaining reader.old) (λ _. R.remaining reader.new ≡ Some [])) }

    // What the fault says, and what was written by then.
    ensures fault { IfErr result (StandsAfter IsTraceOfRun
        (call R.remaining R.failures W.told reader.old reader.new writer.old writer.new)) }
{
    let script = read_script(alloc, reader)?;
    let log = log_of_run(rt, alloc, &script)?;
    print_trace(alloc, writer, &script, log.entries())
}

/// Runs a script as [`run`] does, judges the trace of that run, and writes the last line of the report alone.
///
/// # Errors
///
/// The errors of [`run`].
pub fn check<T: Threads + Wait + Sync, R: Source, W: Sink>(
    rt: &T,
    alloc: Global,
    reader: &mut R,
    writer: &mut W,
) -> Result<Verdict, Fault>
    // The bytes are a script of at most 16 tasks. The last line of the report of a run was written, and nothing else.
    // It accepts the steps and the releases.
    ensures ok { IfOk result (λ _. Wrote IsEndOfReport
        (call R.remaining R.failures W.told reader.old reader.new writer.old writer.new)) }
    ensures verdict { IfOk result (λ verdict.
        IfSome (R.remaining reader.old) (λ bytes. IsVerdictOfRun (lines_of bytes) verdict)) }

    // The reader is at its end.
    ensures end { IfOk result (λ _. IfSome (R.remaining reader.old) (λ _. R.remaining reader.new ≡ Some [])) }

    // What the fault says, and what was written by then.
    ensures fault { IfErr result (StandsAfter IsEndOfReport
        (call R.remaining R.failures W.told reader.old reader.new writer.old writer.new)) }
{
    let script = read_script(alloc, reader)?;
    let log = log_of_run(rt, alloc, &script)?;
    let mut manager = manager_of(alloc, &script)?;
    let verdict = judge_entries(&mut manager, log.entries());
    print_verdict(alloc, writer, &verdict)?;
    Ok(verdict)
}

/// Reads a reader to its end, and returns the script. The bytes are not kept.
fn read_script<R: Source>(alloc: Global, reader: &mut R) -> Result<Text, Fault>
    ensures ok { IfOk result (λ script.
        IfSome (R.remaining reader.old) (λ bytes. SpellsRunnable (lines_of bytes) (trace_of script))) }
    ensures runnable { IfOk result (λ script. IsRunnable (trace_of script)) }
    ensures end { IfOk result (λ _. IfSome (R.remaining reader.old) (λ _. R.remaining reader.new ≡ Some [])) }
    ensures fault { IfErr result (Unread (R.remaining reader.old) (R.failures reader.old) (R.failures reader.new)) }
{
    let bytes = read_all(alloc, reader)?;
    let script = parse_script(alloc, &bytes)?;
    if script.bases.len() > MAX_WORKERS {
        return Err(Fault::TooManyWorkers);
    }
    Ok(script)
}

/// Runs the script, and returns the log of that run.
fn log_of_run<T: Threads + Wait + Sync>(rt: &T, alloc: Global, script: &Text) -> Result<Log, Fault>
    requires runnable { IsRunnable (trace_of script.now) }
    ensures ok { IfOk result (λ log. IsRunOf (trace_of script.now) log.entries) }
    ensures fault { IfErr result IsOfRun }
{
    let scripts = scripts_of(alloc, script)?;
    let start = manager_of(alloc, script)?;
    let room = script.lines.len() + script.bases.len();
    let log = run_from(rt, alloc, &start, &scripts, room)?;
    Ok(gather(log, &start, &scripts)?)
}

/// Runs the scripts from this state, and returns the log of that run, which has room for `room` entries.
fn run_from<T: Threads + Wait + Sync>(
    rt: &T,
    alloc: Global,
    start: &Manager,
    scripts: &[Vec<Op>],
    room: usize,
) -> Result<Log, Fault>
    requires few { length scripts.now ≤ MAX_WORKERS }
    ensures run { IfOk result (λ log. (end : State) × IsRun log.start log.entries end) }
    ensures fault { IfErr result IsOfRun }
{
    let manager = start.try_clone(alloc)?;
    let (shared, _no_lookers) = Shared::new(rt, alloc, manager, room, 0)?;
    let ran = run_scripts(rt, alloc, &shared, scripts);
    // Only this call closes what is shared, so it is made after a fault, too.
    let (_end, log) = shared.finish(rt);
    match ran {
        Ok(()) => Ok(log),
        Err(fault) => Err(Fault::Shared(fault)),
    }
}
