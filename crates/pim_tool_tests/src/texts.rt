//! What is read of a trace.

use pim_base::{MutexNo, Op, Prio, Protocol, Reply, Step, StepLine, TaskNo};
use pim_text::{TextFault, parse};
use std::test::Fail;

/// There is no such priority.
const NO_PRIO: &str = "a priority is 1 to 99";

/// A trace of version 2.
const TRACE: &[u8] = b"\
pim 2
task 1 10
task 2 99
mutex 1 protect 7
2 lock 65535
1 release = released 0
";

/// The task asks for this, and this reply was recorded.
fn line(actor: u16, op: Op, recorded: Option<Reply>) -> StepLine {
    let actor = TaskNo(actor);
    let step = Step { actor, op };
    StepLine { step, recorded }
}

#[test]
fn trace_is_read_into_its_parts(rt: HostRuntime) -> Result<(), Fail> {
    let ten = Prio::new(10).ok_or(NO_PRIO)?;
    let most = Prio::new(99).ok_or(NO_PRIO)?;
    let seven = Prio::new(7).ok_or(NO_PRIO)?;
    let lock = line(2, Op::Lock(MutexNo(65_535)), None);
    let release = line(1, Op::ReleaseAll, Some(Reply::Released(0)));
    let text = parse(rt.alloc(), TRACE)?;
    assert!(rt; text.version == 2);
    assert!(rt; text.bases.as_slice() == [ten, most].as_slice());
    assert!(rt; text.protocols.as_slice() == [Protocol::Protect(seven)].as_slice());
    assert!(rt; text.lines.as_slice() == [lock, release].as_slice());
    Ok(())
}

#[test]
fn faults_are_printed_in_words(rt: HostRuntime) -> Result<(), Fail> {
    let line = format!(in rt.alloc(); "{} {}", TextFault::Line(258), TextFault::Memory)?;
    assert!(rt; line.as_str() == "line 258 memory");
    Ok(())
}
