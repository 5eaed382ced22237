//! Runs of scripts, their traces and verdicts.

use pim_base::{Entry, MutexNo, Op, Reply, Step, TaskNo};
use pim_judge::{judge_entries, manager_of, print_trace, print_verdict};
use pim_tool::{Fault, MemoryReader, MemoryWriter, Verdict, check, parse_script, run, status};
use std::alloc::Global;
use std::test::Fail;

const SCRIPT: &[u8] = b"pim 1\ntask 1 10\ntask 2 20\nmutex 1 inherit\n1 lock 1\n2 lock 1\n";

const TRACE: &[u8] =
    b"pim 1\ntask 1 10\ntask 2 20\nmutex 1 inherit\n1 lock 1 = granted\n2 lock 1 = queued\n";

/// The task locks mutex 1, and is replied this.
fn locks(task: u16, reply: Reply) -> Entry {
    let actor = TaskNo(task);
    let op = Op::Lock(MutexNo(1));
    Entry {
        step: Step { actor, op },
        reply,
    }
}

#[test]
fn trace_has_the_declarations_and_each_reply(rt: HostRuntime) -> Result<(), Fail> {
    let script = parse_script(rt.alloc(), SCRIPT)?;
    let entries = [locks(1, Reply::Granted), locks(2, Reply::Queued)];
    let mut writer = MemoryWriter::new(rt.alloc());
    print_trace(rt.alloc(), &mut writer, &script, &entries)?;
    assert!(rt; writer.bytes() == TRACE);
    Ok(())
}

/// Returns the verdict on the script's run, if the second lock has this reply.
fn verdict_with(alloc: Global, second: Reply) -> Result<Verdict, Fault> {
    let script = parse_script(alloc, SCRIPT)?;
    let mut manager = manager_of(alloc, &script)?;
    let entries = [locks(1, Reply::Granted), locks(2, second)];
    Ok(judge_entries(&mut manager, &entries))
}

#[test]
fn first_other_reply_is_rejected(rt: HostRuntime) {
    assert!(rt; verdict_with(rt.alloc(), Reply::Queued) == Ok(Verdict::Accepted(2)));
    assert!(rt; verdict_with(rt.alloc(), Reply::Granted) == Ok(Verdict::Rejected(2)));
}

#[test]
fn verdict_is_a_line(rt: HostRuntime) -> Result<(), Fail> {
    let mut writer = MemoryWriter::new(rt.alloc());
    print_verdict(rt.alloc(), &mut writer, &Verdict::Accepted(u32::MAX))?;
    print_verdict(rt.alloc(), &mut writer, &Verdict::Rejected(7))?;
    assert!(rt; writer.text() == Some("accepted 4294967295\nrejected 7\n"));
    Ok(())
}

/// One task, which releases at its end what it locked.
const ALONE: &[u8] = b"pim 2\ntask 1 10\nmutex 1 inherit recursive\n1 lock 1\n";

const TRACE_ALONE: &str = "\
pim 2
task 1 10
mutex 1 inherit recursive
1 lock 1 = granted
1 release = released 1
";

#[test]
fn script_is_run_and_checked(rt: HostRuntime) {
    let mut trace = MemoryWriter::new(rt.alloc());
    let ran = run(&rt, rt.alloc(), &mut MemoryReader::new(ALONE), &mut trace);
    let is_trace = trace.text() == Some(TRACE_ALONE);
    let mut line = MemoryWriter::new(rt.alloc());
    let checked = check(&rt, rt.alloc(), &mut MemoryReader::new(ALONE), &mut line);
    let is_line = line.text() == Some("accepted 2\n");
    drop(trace);
    drop(line);
    assert!(rt; ran == Ok(()) && is_trace);
    assert!(rt; checked == Ok(Verdict::Accepted(2)) && status(&checked) == 0 && is_line);
}
