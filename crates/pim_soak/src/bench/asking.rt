//! Who asks for a priority, who changes priorities, and what is between them.

ghost use Rattle.std.specs.Prelude.{◌≡◌, is_ok};

use pim_base::{Prio, Reason, Step, TaskNo};
use pim_manager::Manager;
use pim_shared::{Looker, Shared};
use std::io;
use std::sync::{Mutex, RwLock, Wait};

/// What is asked of a manager: the priority of a task and its reason, and how many steps were made before.
pub type Answer = Option<(u64, Prio, Reason)>;

/// One who asks.
pub trait Ask {
    /// Asks about the task.
    fn ask<R: Wait>(&mut self, rt: &R, task: TaskNo) -> Answer;
}

/// What steps are made on.
pub trait Change {
    /// Makes the step, and returns whether it was made.
    fn change<R: Wait>(&self, rt: &R, step: Step) -> bool;
}

/// A manager, and how many steps it made.
#[derive(Drop)]
pub struct Counted {
    pub manager: Manager,
    pub steps: u64,
}

/// One who asks a manager under a read-write lock.
#[derive(Clone, Copy)]
pub struct LockReader<'a>(pub &'a RwLock<Counted>);

impl<'a> Ask for LockReader<'a> {
    fn ask<R: Wait>(&mut self, rt: &R, task: TaskNo) -> Answer {
        let counted = self.0.read(rt);
        let prio = counted.manager.effective(task)?;
        let reason = counted.manager.reason(task)?;
        Some((counted.steps, prio, reason))
    }
}

impl Change for RwLock<Counted> {
    fn change<R: Wait>(&self, rt: &R, step: Step) -> bool {
        let mut counted = self.write(rt);
        counted.manager.step(step);
        counted.steps = counted.steps.saturating_add(1);
        true
    }
}

impl Change for Mutex<Manager> {
    fn change<R: Wait>(&self, rt: &R, step: Step) -> bool {
        self.lock(rt).step(step);
        true
    }
}

impl Ask for Looker {
    fn ask<R: Wait>(&mut self, _rt: &R, task: TaskNo) -> Answer {
        let seen = self.look(task).ok()??;
        Some((seen.steps, seen.prio, seen.reason))
    }
}

impl Change for Shared {
    fn change<R: Wait>(&self, rt: &R, step: Step) -> bool {
        self.call(rt, step).is_ok()
    }
}

/// Returns an error where what was to be timed wasn't done: what is refused or closed answers sooner.
pub fn expect(is_done: bool) -> io::Result<()>
    ensures { is_ok result ≡ is_done }
{
    if is_done {
        Ok(())
    } else {
        Err(io::Error::from(io::ErrorKind::InvalidInput))
    }
}
