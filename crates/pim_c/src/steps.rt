//! The steps, a function each.

ghost use Rattle.std.specs.Prelude.{◌≡◌, ◌≤◌, ◌+◌, ◌*◌};
ghost use Rattle.pim_base.specs.Counts.{changed_task_count, handed_mutex_count};
ghost use Rattle.pim_base.specs.declared.limits.TheConstants.{MAX_TASKS, MAX_MUTEXES};
ghost use Rattle.pim_c.specs.Answers.{IsAnswer, IsAnswered, after_step};
ghost use Rattle.pim_c.specs.Kernel.{kernel_op, c_reply, c_after, c_stepped};

use crate::answer::CAnswer;
use crate::handle::Handle;
use crate::numbers::KERNEL;
use pim_base::{MutexNo, Op, Step, TaskNo};
use pim_manager::{Done, KernelOp, TrackedManager};
use std::alloc::Global;

/// `pthread_mutex_lock`: the task locks the mutex if it is free, or if the task owns it and it is recursive. Else the
/// task waits, or is refused.
#[unsafe(no_mangle)]
pub extern "C" fn pim_lock(alloc: Global, handle: &mut Handle, task: u16, mutex: u16) -> CAnswer
    ensures answer { IsAnswered handle.old.held (record { actor = task; op = Op.Lock mutex }) result }
    ensures state { handle.new.held ≡ after_step handle.old.held (record { actor = task; op = Op.Lock mutex }) }
{
    make_step(alloc, handle, task, Op::Lock(MutexNo(mutex)))
}

/// `pthread_mutex_trylock`: the task locks the mutex if it is free, or if the task owns it and it is recursive. Else it
/// is refused.
#[unsafe(no_mangle)]
pub extern "C" fn pim_try(alloc: Global, handle: &mut Handle, task: u16, mutex: u16) -> CAnswer
    ensures answer { IsAnswered handle.old.held (record { actor = task; op = Op.Try mutex }) result }
    ensures state { handle.new.held ≡ after_step handle.old.held (record { actor = task; op = Op.Try mutex }) }
{
    make_step(alloc, handle, task, Op::Try(MutexNo(mutex)))
}

/// `pthread_mutex_unlock`: hands the mutex to the first waiter, or frees it. The owner keeps a recursive mutex until
/// the last of its unlocks.
#[unsafe(no_mangle)]
pub extern "C" fn pim_unlock(alloc: Global, handle: &mut Handle, task: u16, mutex: u16) -> CAnswer
    ensures answer { IsAnswered handle.old.held (record { actor = task; op = Op.Unlock mutex }) result }
    ensures state { handle.new.held ≡ after_step handle.old.held (record { actor = task; op = Op.Unlock mutex }) }
{
    make_step(alloc, handle, task, Op::Unlock(MutexNo(mutex)))
}

/// Unlocks all mutexes of the task, in ascending order.
#[unsafe(no_mangle)]
pub extern "C" fn pim_release_all(alloc: Global, handle: &mut Handle, task: u16) -> CAnswer
    ensures answer { IsAnswered handle.old.held (record { actor = task; op = Op.ReleaseAll }) result }
    ensures state { handle.new.held ≡ after_step handle.old.held (record { actor = task; op = Op.ReleaseAll }) }
{
    make_step(alloc, handle, task, Op::ReleaseAll)
}

/// Withdraws the waiting target from its queue. The task asks for it, or the kernel, with `KERNEL` as the task.
#[unsafe(no_mangle)]
pub extern "C" fn pim_cancel(alloc: Global, handle: &mut Handle, task: u16, target: u16) -> CAnswer
    ensures answer { IsAnswered handle.old.held (record { actor = task; op = Op.Cancel target }) result }
    ensures state { handle.new.held ≡ after_step handle.old.held (record { actor = task; op = Op.Cancel target }) }
{
    make_step(alloc, handle, task, Op::Cancel(TaskNo(target)))
}

/// `pthread_setschedprio`: sets the base priority of the target to this level. The task asks for it, or the kernel,
/// with `KERNEL` as the task.
#[unsafe(no_mangle)]
pub extern "C" fn pim_set_base(
    alloc: Global,
    handle: &mut Handle,
    task: u16,
    target: u16,
    level: u16,
) -> CAnswer
    ensures answer { IsAnswered handle.old.held (record { actor = task; op = Op.SetBase target level }) result }
    ensures state { handle.new.held ≡ after_step handle.old.held (record { actor = task; op = Op.SetBase target level }) }
{
    make_step(alloc, handle, task, Op::SetBase(TaskNo(target), level))
}

/// `pthread_mutex_setprioceiling`: sets the ceiling of the PROTECT mutex to this level. The task asks for it, or the
/// kernel, with `KERNEL` as the task. Unlike the call of POSIX it locks nothing, and the owner may ask for it.
#[unsafe(no_mangle)]
pub extern "C" fn pim_set_ceiling(
    alloc: Global,
    handle: &mut Handle,
    task: u16,
    mutex: u16,
    level: u16,
) -> CAnswer
    ensures answer { IsAnswered handle.old.held (record { actor = task; op = Op.SetCeiling mutex level }) result }
    ensures state { handle.new.held ≡ after_step handle.old.held (record { actor = task; op = Op.SetCeiling mutex level }) }
{
    make_step(alloc, handle, task, Op::SetCeiling(MutexNo(mutex), level))
}

/// Makes the step, if there is a manager.
///
/// It is inlined into each call above, so that each is compiled for its own kind of step.
#[inline(always)]
fn make_step(alloc: Global, handle: &mut Handle, task: u16, op: Op) -> CAnswer
    ensures answer { IsAnswered handle.old.held (record { actor = task; op = op }) result }
    ensures state { handle.new.held ≡ after_step handle.old.held (record { actor = task; op = op }) }
{
    let Some(mut held) = handle.take(alloc) else {
        return CAnswer::none();
    };
    let actor = TaskNo(task);
    let answer = answer_step(&mut held, Step { actor, op });
    handle.put(held);
    answer
}

/// Makes the step.
#[inline(always)]
fn answer_step(held: &mut TrackedManager, step: Step) -> CAnswer
    ensures answer { IsAnswer held.old.state step result }
    ensures state { held.new ≡ c_stepped held.old step }
{
    let Done { reply, visits } = step_of(held, step);
    let mut answer = CAnswer::of(reply, visits as u16);
    // A step without a visit changed no priority: on the fast paths the compiler knows that.
    if visits > 0 {
        answer.changed = held.changed_count();
    }
    answer
}

/// Makes the step of a task, or that of the kernel.
#[inline(always)]
fn step_of(held: &mut TrackedManager, step: Step) -> Done
    ensures reply { result.reply ≡ c_reply held.old.state step }
    ensures state { held.new ≡ c_stepped held.old step }
    ensures least { changed_task_count held.old.state (c_after held.old.state step) ≤ result.visits }
    ensures most { result.visits ≤ 1 + changed_task_count held.old.state (c_after held.old.state step)
        + 2 * handed_mutex_count held.old.state (c_after held.old.state step) }
    ensures few { result.visits ≤ 1 + MAX_TASKS + 2 * MAX_MUTEXES }
{
    match of_kernel(&step) {
        Some(op) => held.kernel_step(op),
        None => held.step(step),
    }
}

/// Returns what the kernel asks for, if `KERNEL` stands where a task asks and the kernel may ask for this.
#[inline(always)]
fn of_kernel(step: &Step) -> Option<KernelOp>
    ensures { result ≡ kernel_op step.now }
{
    if step.actor.get() != KERNEL {
        return None;
    }
    match step.op {
        Op::Lock(_) | Op::Try(_) | Op::Unlock(_) | Op::ReleaseAll => None,
        Op::Cancel(target) => Some(KernelOp::Cancel(target)),
        Op::SetBase(target, level) => Some(KernelOp::SetBase(target, level)),
        Op::SetCeiling(mutex, level) => Some(KernelOp::SetCeiling(mutex, level)),
    }
}
