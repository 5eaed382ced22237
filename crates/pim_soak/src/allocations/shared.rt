//! The calls of a shared manager, and workers.

use super::managers::{free, is_waited_for, lock, waited_for};
use super::{Failure, expect, expect_right};
use pim_base::{Entry, MAX_WORKERS, MutexNo, Op, Reason, Refusal, Reply, Step, TaskNo};
use pim_manager::Manager;
use pim_shared::{Gate, Log, Looker, Settled, Shared, SharedFault, gather, run_scripts, worker};
use std::alloc::Global;
use std::sync::Wait;
use std::sync::atomic::{AtomicBool, Ordering};
use std::thread;
use std::thread::Threads;

const FIRST: MutexNo = MutexNo(1);

/// Returns the step in which the task unlocks mutex 1.
fn unlock(task: u16) -> Step {
    Step {
        actor: TaskNo(task),
        op: Op::Unlock(FIRST),
    }
}

/// What a read returns: the number of entries, the priority, and the reason.
type Look = Result<Option<(u64, u16, Reason)>, SharedFault>;

/// Reads of task 1, to which task 2 donates the same priority as its base.
fn look(looker: &mut Looker) -> Look {
    match looker.look(TaskNo(1))? {
        Some(seen) => Ok(Some((seen.steps, seen.prio.get(), seen.reason))),
        None => Ok(None),
    }
}

/// What a read of task 1 returns after this number of entries.
fn at_base(steps: u64) -> Look {
    Ok(Some((steps, 10, Reason::Base)))
}

/// Returns whether a shared manager made and logged nothing.
fn is_unchanged(manager: &Manager, log: &Log) -> bool {
    log.entries().is_empty() && is_waited_for(manager) && is_waited_for(log.start())
}

/// What four calls return if the first one is out of memory. The later ones allocate nothing.
const CLOSED: [Result<Reply, SharedFault>; 4] = [
    Err(SharedFault::Memory),
    Err(SharedFault::Closed),
    Err(SharedFault::Closed),
    Err(SharedFault::Closed),
];

/// What the four calls return if none is out of memory: task 1 hands mutex 1 over to task 2, and isn't its owner any
/// more. Task 2 unlocks it, and task 3 locks it.
const REPLIES: [Result<Reply, SharedFault>; 4] = [
    Ok(Reply::Handed(TaskNo(2))),
    Ok(Reply::Refused(Refusal::NotOwner)),
    Ok(Reply::Freed),
    Ok(Reply::Granted),
];

/// Returns whether the four steps are logged with their replies, and task 3 owns mutex 1.
fn has_four_calls(manager: &Manager, log: &Log) -> bool {
    let made = [
        Entry {
            step: unlock(1),
            reply: Reply::Handed(TaskNo(2)),
        },
        Entry {
            step: unlock(1),
            reply: Reply::Refused(Refusal::NotOwner),
        },
        Entry {
            step: unlock(2),
            reply: Reply::Freed,
        },
        Entry {
            step: lock(3),
            reply: Reply::Granted,
        },
    ];
    log.entries() == made.as_slice() && manager.owner(FIRST) == Some(Some(TaskNo(3)))
}

/// Makes a shared manager whose task 2 waits for task 1, with one reader.
fn shared_by_two<R: Wait>(rt: &R, alloc: Global) -> Result<(Shared, Looker), Failure> {
    let manager = waited_for(alloc)?;
    let (shared, mut lookers) = Shared::new(rt, alloc, manager, 10, 1).map_err(
        |_fault| Failure::Before,
    )?;
    match lookers.pop() {
        Some(looker) => Ok((shared, looker)),
        None => {
            let _end = shared.finish(rt);
            Err(Failure::Wrong)
        }
    }
}

/// What four calls show: what each returns, a read before and after them, and whether all or none was made.
#[derive(Clone, Copy)]
struct FourCalls {
    answers: [Result<Reply, SharedFault>; 4],
    looks: [Look; 2],
    is_unchanged: bool,
    has_four_calls: bool,
}

/// Makes the four calls: with the reader by `call_with`, else by `call`.
fn answers<R: Wait>(
    rt: &R,
    shared: &Shared,
    looker: &mut Looker,
    by_looker: bool,
) -> [Result<Reply, SharedFault>; 4] {
    if by_looker {
        [
            shared.call_with(rt, looker, unlock(1)),
            shared.call_with(rt, looker, unlock(1)),
            shared.call_with(rt, looker, unlock(2)),
            shared.call_with(rt, looker, lock(3)),
        ]
    } else {
        [
            shared.call(rt, unlock(1)),
            shared.call(rt, unlock(1)),
            shared.call(rt, unlock(2)),
            shared.call(rt, lock(3)),
        ]
    }
}

/// Makes the four calls on a shared manager, and ends it.
fn called<R: Wait>(rt: &R, shared: Shared, looker: Looker, by_looker: bool) -> FourCalls {
    let mut looker = looker;
    let before = look(&mut looker);
    let answers = answers(rt, &shared, &mut looker, by_looker);
    let after = look(&mut looker);
    let (manager, log) = shared.finish(rt);
    FourCalls {
        answers,
        looks: [before, after],
        is_unchanged: is_unchanged(&manager, &log),
        has_four_calls: has_four_calls(&manager, &log),
    }
}

/// Fails unless all four calls were made or none, as they returned.
fn expect_called(called: FourCalls) -> Result<(), Failure> {
    if called.answers[0].is_err() {
        expect(called.answers == CLOSED && called.is_unchanged)?;
        expect(called.looks == [at_base(0), at_base(0)])?;
        return Err(Failure::InCall);
    }
    expect(called.answers == REPLIES && called.has_four_calls)?;
    expect(called.looks == [at_base(0), at_base(4)])?;
    Ok(())
}

/// Makes the four calls on a new shared manager, and looks at what they show.
fn expect_calls<R: Wait>(rt: &R, alloc: Global, by_looker: bool) -> Result<(), Failure> {
    let (shared, looker) = shared_by_two(rt, alloc)?;
    // A reply can't be carried past a `?`: there is none behind these calls.
    let called = called(rt, shared, looker, by_looker);
    expect_called(called)
}

pub(crate) fn call<R: Wait>(rt: &R, alloc: Global) -> Result<(), Failure> {
    expect_calls(rt, alloc, false)
}

pub(crate) fn call_with<R: Wait>(rt: &R, alloc: Global) -> Result<(), Failure> {
    expect_calls(rt, alloc, true)
}

/// Returns whether both readers of a new shared manager see no entry, and its end is its start.
fn starts<R: Wait>(rt: &R, manager: Manager, alloc: Global) -> Result<bool, SharedFault> {
    let (shared, mut lookers) = Shared::new(rt, alloc, manager, 100, 2)?;
    let mut are_right = lookers.len() == 2;
    for looker in &mut lookers {
        are_right = are_right && look(looker) == at_base(0);
    }
    let (manager, log) = shared.finish(rt);
    Ok(are_right && is_unchanged(&manager, &log))
}

pub(crate) fn shared_new<R: Wait>(rt: &R, alloc: Global) -> Result<(), Failure> {
    let manager = waited_for(alloc)?;
    let is_right = starts(rt, manager, alloc);
    if let Err(fault) = is_right {
        expect(fault == SharedFault::Memory || fault == SharedFault::NoPlace)?;
    }
    expect_right(is_right.ok())
}

/// A gate before a shared manager in which task 2 waits from the start on: its lock is queued. It knows when a task
/// settles.
#[derive(Drop)]
struct Waiting<'a> {
    shared: &'a Shared,
    settles: AtomicBool,
}

impl<'a> Waiting<'a> {
    /// Returns the gate before this shared manager.
    fn new(shared: &'a Shared) -> Waiting<'a> {
        let settles = AtomicBool::new(false);
        Waiting { shared, settles }
    }

    /// Returns once a task settles, or after 1,000,000 turns.
    fn wait_until_settling(&self) {
        for _turn in 0..1_000_000 {
            if self.settles.load(Ordering::SeqCst) {
                return;
            }
            thread::yield_now();
        }
    }
}

impl Gate for Waiting<'_> {
    fn call<R: Wait>(&self, rt: &R, step: Step) -> Result<Reply, SharedFault> {
        if step == lock(2) {
            Ok(Reply::Queued)
        } else {
            self.shared.call(rt, step)
        }
    }

    fn settle<R: Wait>(
        &self,
        rt: &R,
        task: TaskNo,
        mutex: MutexNo,
    ) -> Result<Settled, SharedFault> {
        self.settles.store(true, Ordering::SeqCst);
        self.shared.settle(rt, task, mutex)
    }
}

/// What the workers of task 2 and of task 1 return.
type Both = (Result<(), SharedFault>, Result<(), SharedFault>);

/// Lets task 2 settle, in a thread of its own, and then runs the worker of task 1. Returns `None` if the thread didn't
/// start.
fn settle_and_call<R: Threads + Wait + Sync>(rt: &R, gate: &Waiting<'_>) -> Option<Both> {
    let mut settled = Ok(());
    let called = thread::scope(
        thread::scope_env(),
        rt,
        |scope| -> Option<Result<(), SharedFault>> {
            let answer = &mut settled;
            let waits = move || *answer = worker(gate, rt, TaskNo(2), &[Op::Lock(FIRST)]);
            let _started = scope.spawn(waits).ok()?;
            gate.wait_until_settling();
            Some(worker(gate, rt, TaskNo(1), &[Op::Unlock(FIRST)]))
        },
    );
    Some((settled, called?))
}

/// The task that waits meanwhile is woken, and its worker ends. After the unlock task 2 releases its mutex, too.
pub(crate) fn call_beside_a_waiting_task<R: Threads + Wait + Sync>(
    rt: &R,
    alloc: Global,
) -> Result<(), Failure> {
    let (shared, _looker) = shared_by_two(rt, alloc)?;
    let answers = settle_and_call(rt, &Waiting::new(&shared));
    let (manager, log) = shared.finish(rt);
    let are_made = log.entries().len() == 3 && manager.owner(FIRST) == Some(None);
    let is_unchanged = is_unchanged(&manager, &log);
    drop(manager);
    drop(log);
    let answers = answers.ok_or(Failure::Before)?;
    if answers == (Ok(()), Ok(())) {
        return expect(are_made);
    }
    expect(is_unchanged && answers == (Err(SharedFault::Closed), Err(SharedFault::Memory)))?;
    Err(Failure::InCall)
}

/// Two scripts in opposite orders over two mutexes, or the fault if an allocation failed.
fn scripts(alloc: Global) -> Result<Vec<Vec<Op>>, SharedFault> {
    let second = MutexNo(2);
    let mut scripts = Vec::new(alloc);
    for (one, other) in [(FIRST, second), (second, FIRST)] {
        let lines = [
            Op::Lock(one),
            Op::Lock(other),
            Op::Unlock(other),
            Op::Unlock(one),
        ];
        let script = lines.to_vec(alloc)?;
        scripts
            .push(script)
            .map_err(|_unpushed| SharedFault::Memory)?;
    }
    Ok(scripts)
}

/// Returns whether some of the ten steps were made, with the replies of a manager that makes them one by one.
fn are_part(mut manager: Manager, entries: &[Entry]) -> bool {
    for entry in entries {
        if manager.step(entry.step).reply != entry.reply {
            return false;
        }
    }
    entries.len() < 10
}

/// Runs the scripts on a shared manager, and returns what that answers, and the log.
fn run_of<R: Threads + Wait + Sync>(
    rt: &R,
    alloc: Global,
    scripts: &[Vec<Op>],
) -> Result<(Result<(), SharedFault>, Log), Failure> {
    if scripts.len() > MAX_WORKERS {
        return Err(Failure::Wrong);
    }
    let manager = free(alloc)?;
    let (shared, _lookers) = Shared::new(rt, alloc, manager, 10, 0).map_err(
        |_fault| Failure::Before,
    )?;
    let answer = run_scripts(rt, alloc, &shared, scripts);
    let (_manager, log) = shared.finish(rt);
    Ok((answer, log))
}

/// Runs the scripts, and returns what that answers, and whether the log is theirs, or a part of it after a fault.
fn ran<R: Threads + Wait + Sync>(
    rt: &R,
    alloc: Global,
    scripts: &[Vec<Op>],
) -> Result<(Result<(), SharedFault>, bool), Failure> {
    let start = free(alloc)?;
    let (answer, log) = run_of(rt, alloc, scripts)?;
    let is_right = if answer.is_ok() {
        gather(log, &start, scripts).is_ok()
    } else {
        are_part(start, log.entries())
    };
    Ok((answer, is_right))
}

/// If a worker isn't started, the other makes its whole script. If a call is out of memory, both end.
pub(crate) fn run_scripts_in_opposite_orders<R: Threads + Wait + Sync>(
    rt: &R,
    alloc: Global,
) -> Result<(), Failure> {
    let scripts = scripts(alloc).map_err(|_fault| Failure::Before)?;
    let (answer, is_right) = ran(rt, alloc, &scripts)?;
    expect(is_right)?;
    match answer {
        Ok(()) => Ok(()),
        Err(SharedFault::Memory) => Err(Failure::InCall),
        Err(_) => Err(Failure::Wrong),
    }
}
