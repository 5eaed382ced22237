//! Calls by `call_with` with a reader of another manager, and next to other calls.

use crate::making::{base, by, shared};
use crate::rows::Row::{CallWith, Look};
use crate::rows::{Answer, Row, first_wrong};
use Op::SetBase;
use pim_base::{Op, Prio, Reason, Reply, TaskNo};
use pim_shared::{Looker, Shared, SharedFault};
use std::alloc::Global;
use std::process::Abort;
use std::sync::Wait;
use std::thread::{Threads, join};

/// A call with a reader whose own manager has made no step.
const UNMOVED: [Row; 2] = [
    CallWith(0, 1, SetBase(TaskNo(2), 70), Err(SharedFault::NoPlace)),
    Look(0, 2, Ok(Some((0, 20, Reason::Base)))),
];

/// A call with a reader whose own manager has made a step that it hasn't seen.
const UNSEEN: [Row; 2] = [
    CallWith(0, 1, SetBase(TaskNo(2), 80), Err(SharedFault::NoPlace)),
    Look(0, 2, Ok(Some((1, 30, Reason::Base)))),
];

/// A call with a reader whose own manager has ended.
const ENDED: [Row; 2] = [
    CallWith(0, 1, SetBase(TaskNo(2), 90), Err(SharedFault::NoPlace)),
    Look(0, 2, Err(SharedFault::Closed)),
];

/// What calls with a reader of another manager show: the first wrong row of each part, the answer to a call of the other
/// manager, and the number of entries and the base of task 2 at the end of the called one.
#[derive(Clone, Copy)]
struct OtherReader {
    wrong: [Option<usize>; 3],
    set: Answer,
    entries: usize,
    base: Option<Prio>,
}

/// Calls a shared manager with a reader of another one.
fn with_other_reader<R: Wait + Abort>(rt: &R, alloc: Global) -> OtherReader {
    let (one, _) = shared(rt, alloc, 3, 1);
    let (other, mut lookers) = shared(rt, alloc, 1, 1);
    let unmoved = first_wrong(rt, &one, &mut lookers, &UNMOVED);
    let set = other.call(rt, base(2, 30));
    let unseen = first_wrong(rt, &one, &mut lookers, &UNSEEN);
    let (_, _log) = other.finish(rt);
    let ended = first_wrong(rt, &one, &mut lookers, &ENDED);
    let (manager, log) = one.finish(rt);
    OtherReader {
        wrong: [unmoved, unseen, ended],
        set,
        entries: log.entries().len(),
        base: manager.base(TaskNo(2)),
    }
}

#[test]
fn a_reader_of_another_manager_finds_no_place_and_sees_its_own(rt: HostRuntime) {
    let shown = with_other_reader(&rt, rt.alloc());
    assert!(rt; shown.wrong == [None, None, None]);
    assert!(rt; shown.set == Ok(Reply::Set));
    assert!(rt; shown.entries == 3 && shown.base == Prio::new(90));
}

/// The number of calls of each caller.
const CALLS: u16 = 1_000;

/// Sets the base of the task again and again, each time by a call with the reader.
fn find_often<R: Wait>(
    rt: &R,
    shared: &Shared,
    looker: &mut Looker,
    task: u16,
) -> Result<(), SharedFault> {
    for turn in 0..CALLS {
        shared.call_with(rt, looker, base(task, turn % 99 + 1))?;
    }
    Ok(())
}

/// Releases the mutexes of task 2 again and again, each time by `call`.
fn call_often<R: Wait>(rt: &R, shared: &Shared) -> Result<(), SharedFault> {
    for _turn in 0..CALLS {
        shared.call(rt, by(2, Op::ReleaseAll))?;
    }
    Ok(())
}

/// What three callers return that call at the same time, two of them with a reader.
type Answers = (
    (Result<(), SharedFault>, Result<(), SharedFault>),
    Result<(), SharedFault>,
);

fn called_often<R: Threads + Wait + Sync>(
    rt: &R,
    shared: &Shared,
    a: &mut Looker,
    b: &mut Looker,
) -> Answers {
    join(
        rt,
        || join(
            rt,
            || find_often(rt, shared, a, 1),
            || find_often(rt, shared, b, 2),
        ),
        || call_often(rt, shared),
    )
}

/// What the callers of a shared manager with this room return, and the number of entries.
fn busy<R: Threads + Wait + Abort + Sync>(rt: &R, alloc: Global, room: usize) -> (Answers, usize) {
    let (shared, mut lookers) = shared(rt, alloc, room, 2);
    let mut b = lookers.pop().expect(rt, "a looker");
    let mut a = lookers.pop().expect(rt, "a looker");
    let answers = called_often(rt, &shared, &mut a, &mut b);
    let (_, log) = shared.finish(rt);
    (answers, log.entries().len())
}

#[test]
fn no_other_call_comes_between_a_call_and_its_reader(rt: HostRuntime) {
    let room = 3 * usize::from(CALLS);
    let (answers, entries) = busy(&rt, rt.alloc(), room);
    assert!(rt; answers == ((Ok(()), Ok(())), Ok(())));
    assert!(rt; entries == room);
}
