//! Workers whose threads can't be started, also those of a script that is run or checked.

ghost use Rattle.std.specs.Prelude.{◌≤◌, length};
ghost use Rattle.pim_base.specs.declared.limits.TheConstants.{MAX_WORKERS};

use crate::gates::Recorder;
use crate::making::scripts_of;
use pim_base::{MAX_WORKERS, Op};
use pim_shared::{SharedFault, run_scripts};
use pim_tool::{Fault, MemoryReader, MemoryWriter, check, run};
use std::alloc::{AllocError, Global};
use std::process::Abort;
use std::sync::Wait;
use std::thread::Threads;

/// The most blocks of one size that are allocated.
const BLOCKS: usize = 65_536;

/// The size of the largest blocks. With addresses of 47 bits they fill the address space.
const LARGEST: usize = 1 << 34;

/// Allocates all blocks of at least 128 KiB, so that no stack can be allocated. Some smaller blocks stay free.
fn all_large_blocks(alloc: Global) -> Result<Vec<Vec<u8>>, AllocError> {
    let small: Vec<u8> = Vec::with_capacity(alloc, 1 << 16)?;
    let mut blocks = Vec::with_capacity(alloc, BLOCKS)?;
    for halvings in 0u32..18 {
        for _block in 0..BLOCKS {
            let Ok(block) = Vec::with_capacity(alloc, LARGEST >> halvings) else {
                break;
            };
            blocks.push(block)?;
        }
    }
    drop(small);
    Ok(blocks)
}

/// What a run of these scripts returns if no thread can be started, and the number of its calls.
fn not_started<R: Threads + Wait + Abort + Sync>(
    rt: &R,
    alloc: Global,
    scripts: &[Vec<Op>],
) -> (Result<(), SharedFault>, usize)
    requires { length scripts.now ≤ MAX_WORKERS }
{
    let gate = Recorder::new(rt, alloc, 40);
    let blocks = all_large_blocks(alloc).expect(rt, "memory");
    let answer = run_scripts(rt, alloc, &gate, scripts);
    drop(blocks);
    (answer, gate.into_calls().len())
}

#[test]
fn a_worker_that_is_not_started_makes_no_call_and_counts_as_memory(rt: HostRuntime) {
    let empty: [&[Op]; MAX_WORKERS] = [&[]; MAX_WORKERS];
    for count in [1, 2, MAX_WORKERS] {
        let scripts = scripts_of(&rt, rt.alloc(), &empty[..count.min(MAX_WORKERS)]);
        assert!(rt; scripts.len() <= MAX_WORKERS);
        let shown = not_started(&rt, rt.alloc(), &scripts);
        assert!(rt; shown == (Err(SharedFault::Memory), 0), "{count}");
    }
}

const SCRIPT: &[u8] = b"pim 1\ntask 1 10\ntask 2 20\nmutex 1 inherit\n1 lock 1\n2 lock 1\n";

/// The faults of a run and of a check of the script if no thread can be started, and how much both write.
fn unstarted<R: Threads + Wait + Abort + Sync>(rt: &R, alloc: Global) -> ([Option<Fault>; 2], u64) {
    let mut writer = MemoryWriter::new(alloc);
    let blocks = all_large_blocks(alloc).expect(rt, "memory");
    let ran = run(rt, alloc, &mut MemoryReader::new(SCRIPT), &mut writer).err();
    let checked = check(rt, alloc, &mut MemoryReader::new(SCRIPT), &mut writer).err();
    drop(blocks);
    ([ran, checked], writer.calls())
}

/// A check that prints its verdict without a run would need no thread.
#[test]
fn a_script_whose_workers_are_not_started_is_neither_run_nor_checked(rt: HostRuntime) {
    let memory = Some(Fault::Shared(SharedFault::Memory));
    let shown = unstarted(&rt, rt.alloc());
    assert!(rt; shown == ([memory, memory], 0));
}
