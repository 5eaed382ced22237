//! One run of a scene, compared with the plain manager.

ghost use Rattle.std.specs.Prelude.{◌≤◌, length};
ghost use Rattle.pim_base.specs.declared.limits.TheConstants.{MAX_TASKS, MAX_MUTEXES, MAX_WORKERS};

use crate::crowd::Crowd;
use crate::figures::Figures;
use crate::lookers::{Record, expect_all_closed, run_beside_lookers};
use crate::planted::Planted;
use crate::replay::{compare_ends, replay};
use crate::scene::{Scene, entries_of};
use pim_base::{MAX_MUTEXES, MAX_TASKS, MAX_WORKERS, Op, Prio, Protocol};
use pim_manager::Manager;
use pim_plain::PlainManager;
use pim_shared::{Log, Shared, SharedFault, gather};
use std::alloc::{AllocError, Global};
use std::sync::Wait;
use std::thread::Threads;

/// A manager at the end of a run, and the log of the run.
#[derive(Drop)]
struct Run {
    manager: Manager,
    log: Log,
}

/// Runs the scripts of the scene, each by a worker, while each of the lookers reads. Counts what differs from the plain
/// manager: a reply of the log, a read, or the manager at the end. The mistake is put into these before.
///
/// # Errors
///
/// `Memory` if out of memory, `NoPlace` if there are more tasks than workers, and each error of the run, which is a
/// difference, too: `Torn` if the log isn't a log of the scripts.
pub fn trial<R: Threads + Wait + Sync>(
    rt: &R,
    alloc: Global,
    scene: &Scene,
    lookers: u16,
    planted: Planted,
) -> Result<Figures, SharedFault> {
    let (bases, protocols) = (scene.bases.as_slice(), scene.protocols.as_slice());
    let scripts = scene.scripts.as_slice();
    if scripts.len() > MAX_WORKERS || bases.len() > MAX_TASKS || protocols.len() > MAX_MUTEXES {
        return Err(SharedFault::NoPlace);
    }
    let mut records = records(alloc, lookers)?;
    let run = gathered_run(rt, alloc, bases, protocols, scripts, &mut records)?;
    Ok(compared(alloc, bases, protocols, &run, &mut records, planted)?)
}

/// Returns the records of this many lookers before their first reads.
fn records(alloc: Global, lookers: u16) -> Result<Vec<Record>, AllocError> {
    let mut records = Vec::new(alloc);
    for _ in 0..lookers {
        records.push(Record::new(alloc))?;
    }
    Ok(records)
}

/// Runs the scripts while a looker reads for each record, and returns the run, whose log is one of the scripts.
///
/// # Errors
///
/// The errors of `Manager::new`, `run_watched` and `gather`.
fn gathered_run<R: Threads + Wait + Sync>(
    rt: &R,
    alloc: Global,
    bases: &[Prio],
    protocols: &[Protocol],
    scripts: &[Vec<Op>],
    records: &mut [Record],
) -> Result<Run, SharedFault>
    requires tasks { length bases.now ≤ MAX_TASKS }
    requires mutexes { length protocols.now ≤ MAX_MUTEXES }
    requires scripts { length scripts.now ≤ MAX_WORKERS }
{
    let Ok(start) = Manager::new(alloc, bases, protocols) else {
        return Err(SharedFault::Memory);
    };
    let Run { manager, log } = run_watched(rt, alloc, start.try_clone(alloc)?, scripts, records)?;
    match gather(log, &start, scripts) {
        Ok(log) => Ok(Run { manager, log }),
        Err(fault) => Err(fault),
    }
}

/// Runs the scripts on the manager while a looker reads for each record.
///
/// # Errors
///
/// The errors of `Shared::new` and `run_scripts`.
fn run_watched<R: Threads + Wait + Sync>(
    rt: &R,
    alloc: Global,
    manager: Manager,
    scripts: &[Vec<Op>],
    records: &mut [Record],
) -> Result<Run, SharedFault>
    requires { length scripts.now ≤ MAX_WORKERS }
{
    let room = entries_of(scripts);
    let count = u16::try_from(records.len()).unwrap_or(u16::MAX);
    let (shared, mut lookers) = Shared::new(rt, alloc, manager, room, count)?;
    let crowd = Crowd::new(&shared);
    let answer = run_beside_lookers(rt, alloc, &crowd, scripts, &mut lookers, records);
    let (manager, log) = shared.finish(rt);
    expect_all_closed(lookers, records);
    match answer {
        Ok(()) => Ok(Run { manager, log }),
        Err(fault) => Err(fault),
    }
}

/// Compares the run and what the lookers saw with the plain manager.
///
/// # Errors
///
/// Returns `AllocError` if out of memory.
fn compared(
    alloc: Global,
    bases: &[Prio],
    protocols: &[Protocol],
    run: &Run,
    records: &mut [Record],
    planted: Planted,
) -> Result<Figures, AllocError>
    requires tasks { length bases.now ≤ MAX_TASKS }
    requires mutexes { length protocols.now ≤ MAX_MUTEXES }
{
    let mut figures = Figures {
        scripts: 1,
        ..Figures::default()
    };
    let mut entries = run.log.entries().to_vec(alloc)?;
    planted.change_run(&mut entries, records);
    let mut plain = PlainManager::new(alloc, bases, protocols, 1)?;
    replay(&mut figures, &mut plain, &entries, records);
    planted.change_end(&mut plain);
    compare_ends(alloc, &mut figures, &run.manager, &plain)?;
    Ok(figures)
}
