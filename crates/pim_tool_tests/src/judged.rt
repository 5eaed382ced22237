//! What the calls of pim_judge return: verdicts, reports, faults in words, and statuses.

use pim_base::{Prio, TaskNo};
use pim_judge::Verdict::{Accepted, Rejected};
use pim_judge::{
    Fault, MemoryReader, MemoryWriter, Printer, Verdict, judge, judge_bytes, manager_of, parse,
    read_all, status,
};
use pim_manager::SharedFault;
use pim_page::Page;
use std::test::Fail;

/// Each fault, with its words.
const FAULTS: &[(Fault, &str)] = &[
    (Fault::Line(258), "line 258"),
    (Fault::Read, "read"),
    (Fault::Write, "write"),
    (Fault::Memory, "memory"),
    (Fault::Shared(SharedFault::Full), "shared full"),
    (Fault::Shared(SharedFault::Memory), "shared memory"),
    (Fault::Shared(SharedFault::Closed), "shared closed"),
    (Fault::Shared(SharedFault::Torn), "shared torn"),
    (Fault::Shared(SharedFault::NoPlace), "shared no place"),
    (Fault::TooManyWorkers, "too many workers"),
];

#[test]
fn faults_have_status_2_and_are_printed_in_words(rt: HostRuntime) -> Result<(), Fail> {
    for (fault, words) in FAULTS {
        let printed = format!(in rt.alloc(); "{fault}")?;
        assert!(rt;
            printed.as_str() == *words && status(&Err(*fault)) == 2,
            "{words}"
        );
    }
    Ok(())
}

/// Traces with their reports, verdicts and statuses.
const JUDGED: &[(&[u8], &[u8], Verdict, u8)] = &[
    (
        b"pim 1\ntask 1 10\ntask 2 50\nmutex 1 inherit\n1 lock 1\n2 lock 1\n",
        b"1 granted\n2 queued\n  task 1 at 50 waiter 2 mutex 1\naccepted 2\n",
        Accepted(2),
        0,
    ),
    (
        b"pim 1\n1 lock 1 = granted",
        b"1 refused no-task but recorded granted\nrejected 1\n",
        Rejected(1),
        1,
    ),
];

#[test]
fn traces_are_judged_from_a_stream_and_in_memory(rt: HostRuntime) -> Result<(), Fail> {
    for (text, report, verdict, number) in JUDGED {
        let mut writer = MemoryWriter::new(rt.alloc());
        let answer = judge(rt.alloc(), &mut MemoryReader::new(text), &mut writer);
        let is_report = writer.bytes() == *report;
        drop(writer);
        assert!(rt; is_report && answer == Ok(*verdict) && status(&answer) == *number);
        let judged = judge_bytes(rt.alloc(), text)?;
        assert!(rt; judged.report.as_slice() == *report && judged.verdict == *verdict);
    }
    Ok(())
}

#[test]
fn manager_of_a_text_has_its_tasks(rt: HostRuntime) -> Result<(), Fail> {
    let text = parse(rt.alloc(), b"pim 1\ntask 1 10\nmutex 1 none\n")?;
    let manager = manager_of(rt.alloc(), &text)?;
    let base = manager.base(TaskNo(1));
    drop(manager);
    drop(text);
    assert!(rt; base == Prio::new(10));
    Ok(())
}

#[test]
fn reader_is_read_to_its_end(rt: HostRuntime) -> Result<(), Fail> {
    let bytes = read_all(rt.alloc(), &mut MemoryReader::piecewise(b"pim 1\n", 4, 0))?;
    assert!(rt; bytes.as_slice() == b"pim 1\n".as_slice());
    Ok(())
}

#[test]
fn printer_writes_its_page_when_asked_to(rt: HostRuntime) -> Result<(), Fail> {
    let mut writer = MemoryWriter::new(rt.alloc());
    let mut page = Page::new(rt.alloc())?;
    page.accepted(1)?;
    let mut printer = Printer::new(&mut writer, &mut page);
    printer.write_if_full()?;
    printer.write()?;
    assert!(rt; page.as_slice().is_empty() && writer.calls() == 1);
    assert!(rt; writer.text() == Some("accepted 1\n"));
    Ok(())
}
