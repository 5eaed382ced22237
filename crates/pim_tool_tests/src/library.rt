//! The example of docs/CONTRACTS.md, which has these lines, from the first `use` to the end of `contend`.

ghost use Rattle.std.specs.Prelude.{◌≡◌, max, IfOk};
ghost use Rattle.pim_base.specs.Priorities.{effective_priority};

use pim_base::{MutexNo, Op, Prio, Protocol, Step, TaskNo};
use pim_manager::{MakeFault, Manager};
use std::alloc::Global;

/// Task 1 locks a mutex that task 2 then asks for: task 1 executes at the higher of the two priorities.
pub fn contend(alloc: Global, one: Prio, two: Prio) -> Result<Manager, MakeFault>
    ensures { IfOk result (λ manager. effective_priority manager 1 ≡ max one two) }
{
    let mut manager = Manager::new(alloc, &[one, two], &[Protocol::Inherit])?;
    manager.step(Step {
        actor: TaskNo(1),
        op: Op::Lock(MutexNo(1)),
    }); // Granted
    manager.step(Step {
        actor: TaskNo(2),
        op: Op::Lock(MutexNo(1)),
    }); // Queued
    Ok(manager)
}

#[cfg(test)]
mod tests {
    use super::*;
    use pim_base::Reason;

    #[test]
    fn low_task_executes_at_the_high_priority(rt: HostRuntime) {
        let low = Prio::new(10).expect(&rt, "a priority");
        let high = Prio::new(90).expect(&rt, "a priority");
        let manager = contend(rt.alloc(), low, high).expect(&rt, "memory");
        let (effective, reason) = (manager.effective(TaskNo(1)), manager.reason(TaskNo(1)));
        drop(manager);
        assert!(rt; effective == Some(high));
        assert!(rt; reason == Some(Reason::Waiter(TaskNo(2), MutexNo(1))));
    }
}
