//! Streams of a byte a call, of which each call in turn goes wrong.

use pim_tool::{Fault, MemoryReader, MemoryWriter, Trouble, check, judge, run};
use std::alloc::{AllocGlobal, Global};
use std::process::Abort;
use std::sync::Wait;
use std::thread::Threads;

const SCRIPT: &[u8] = b"pim 1\ntask 1 10\nmutex 1 protect 20\n1 lock 1\n";

const REPORT: &[u8] = b"1 granted\n  task 1 at 20 ceiling 1\naccepted 1\n";

const TRACE: &[u8] = b"\
pim 1
task 1 10
mutex 1 protect 20
1 lock 1 = granted
1 release = released 1
";

/// What is done with the script.
#[derive(Clone, Copy)]
enum Job {
    Judge,
    Run,
    Check,
}

/// Each job, and what it writes.
const JOBS: &[(Job, &[u8])] = &[
    (Job::Judge, REPORT),
    (Job::Run, TRACE),
    (Job::Check, b"accepted 2\n"),
];

/// The fault of a job, and what it writes, where the read of this number or the write of that one goes wrong.
fn done<T: Threads + Wait + Sync>(
    rt: &T,
    alloc: Global,
    job: Job,
    read: u64,
    write: u64,
    trouble: Trouble,
) -> (Option<Fault>, MemoryWriter) {
    let mut reader = MemoryReader::piecewise(SCRIPT, 1, read);
    let mut writer = MemoryWriter::piecewise(alloc, 1, trouble, write);
    let fault = match job {
        Job::Judge => judge(alloc, &mut reader, &mut writer).err(),
        Job::Run => run(rt, alloc, &mut reader, &mut writer).err(),
        Job::Check => check(rt, alloc, &mut reader, &mut writer).err(),
    };
    (fault, writer)
}

#[test]
fn each_failed_read_is_a_fault_and_nothing_is_written(rt: HostRuntime) {
    for (job, output) in JOBS {
        for call in 1..SCRIPT.len() as u64 + 2 {
            let (fault, written) = done(&rt, rt.alloc(), *job, call, 0, Trouble::Fails);
            let calls = written.calls();
            drop(written);
            assert!(rt; fault == Some(Fault::Read) && calls == 0, "read {call}");
        }
        // No read is made after the end.
        let after_end = SCRIPT.len() as u64 + 2;
        let (fault, written) = done(&rt, rt.alloc(), *job, after_end, 0, Trouble::Fails);
        let is_whole = written.bytes() == *output;
        drop(written);
        assert!(rt; fault.is_none() && is_whole);
    }
}

/// Each write of the job in turn goes wrong so: what was written before is a prefix of its output.
fn expect_prefixes<T: Threads + Wait + Sync + Abort + AllocGlobal>(
    rt: &T,
    job: Job,
    output: &[u8],
    trouble: Trouble,
) {
    for count in 0..output.len() {
        let (fault, written) = done(rt, rt.alloc(), job, 0, count as u64 + 1, trouble);
        let is_prefix = written.bytes() == &output[..count];
        drop(written);
        assert!(rt; is_prefix && fault == Some(Fault::Write), "write {count}");
    }
}

#[test]
fn each_wrong_write_leaves_a_prefix(rt: HostRuntime) {
    for (job, output) in JOBS {
        expect_prefixes(&rt, *job, output, Trouble::Fails);
        expect_prefixes(&rt, *job, output, Trouble::Stalls);
    }
}

/// Returns `pim 1` and so many steps, of a task that isn't declared.
fn releases(alloc: Global, times: usize) -> Result<Vec<u8>, Fault> {
    let mut text = b"pim 1\n".to_vec(alloc)?;
    for _step in 0..times {
        text.extend_from_slice(b"1 release\n")?;
    }
    Ok(text)
}

/// Judges the text over a writer whose call of this number goes wrong so. Returns the fault, and how many bytes are
/// written in how many calls.
fn written(alloc: Global, text: &[u8], call: u64, trouble: Trouble) -> (Option<Fault>, usize, u64) {
    let mut writer = MemoryWriter::piecewise(alloc, usize::MAX, trouble, call);
    let fault = judge(alloc, &mut MemoryReader::new(text), &mut writer).err();
    (fault, writer.bytes().len(), writer.calls())
}

#[test]
fn report_is_written_in_pages_of_64_kib(rt: HostRuntime) {
    let text = releases(rt.alloc(), 9_999).expect(&rt, "memory");
    let whole = written(rt.alloc(), &text, 0, Trouble::Fails);
    let failed = written(rt.alloc(), &text, 3, Trouble::Fails);
    let stalled = written(rt.alloc(), &text, 3, Trouble::Stalls);
    drop(text);
    // Lines 1 to 999 have 19,872 bytes, the later ones 21 each. A page is written once it has 65,536: the first with
    // line 3,174 and 65,547 bytes, the next two with 3,121 lines and 65,541 bytes each. What is left has 12,257.
    assert!(rt; whole == (None, 208_886, 4));
    assert!(rt; failed == (Some(Fault::Write), 131_088, 3));
    assert!(rt; stalled == failed);
}
