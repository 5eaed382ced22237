//! Random scripts for random tasks and mutexes, and scripts in opposite orders.

ghost use Rattle.std.specs.Prelude.{◌≤◌, ◌<◌};
ghost use Rattle.pim_soak.specs.declared.scene.TheConstants.{MOST_TASKS, MOST_MUTEXES};

use pim_base::{MutexNo, Op, Prio, Protocol, TaskNo};
use rand_core::utils::NextWord;
use rand_pcg::Pcg32;
use std::alloc::{AllocError, Global};

/// The most tasks, mutexes and lines of a task that are generated.
const MOST_TASKS: u16 = 16;

const MOST_MUTEXES: u16 = 8;

const MOST_LINES: u16 = 24;

/// Tasks with their bases, mutexes with their protocols, and a script for each task.
#[derive(Drop)]
pub struct Scene {
    pub bases: Vec<Prio>,
    pub protocols: Vec<Protocol>,
    pub scripts: Vec<Vec<Op>>,
}

impl Scene {
    /// Returns the scene of this seed, which is always the same.
    ///
    /// # Errors
    ///
    /// Returns `AllocError` if out of memory.
    pub fn random(alloc: Global, seed: u64) -> Result<Scene, AllocError> {
        let mut draw = Draw::new(seed);
        let mut scene = Scene {
            bases: Vec::new(alloc),
            protocols: Vec::new(alloc),
            scripts: Vec::new(alloc),
        };
        for _ in 0..draw.mutexes {
            scene.protocols.push(draw.protocol())?;
        }
        for task in 1..draw.tasks + 1 {
            scene.bases.push(draw.prio())?;
            let mut script = Vec::new(alloc);
            for _ in 0..draw.below(MOST_LINES + 1) {
                script.push(draw.op(TaskNo(task)))?;
            }
            scene.scripts.push(script)?;
        }
        Ok(scene)
    }

    /// Returns the scene of 16 tasks with the bases 10 to 25 and two INHERIT mutexes: each task locks both, the inner one
    /// is released first, and an even task locks them in the opposite order.
    ///
    /// # Errors
    ///
    /// Returns `AllocError` if out of memory.
    pub fn opposite(alloc: Global) -> Result<Scene, AllocError> {
        let mut scene = Scene {
            bases: Vec::new(alloc),
            protocols: Vec::new(alloc),
            scripts: Vec::new(alloc),
        };
        scene.protocols.push(Protocol::Inherit)?;
        scene.protocols.push(Protocol::Inherit)?;
        for task in 1..MOST_TASKS + 1 {
            scene.bases.push(Prio::new(9 + task).unwrap())?;
            scene.scripts.push(nested(alloc, task)?)?;
        }
        Ok(scene)
    }
}

/// Returns the script of a task that locks and unlocks both mutexes.
fn nested(alloc: Global, task: u16) -> Result<Vec<Op>, AllocError> {
    let (outer, inner) = if task % 2 == 1 {
        (MutexNo(1), MutexNo(2))
    } else {
        (MutexNo(2), MutexNo(1))
    };
    let mut script = Vec::new(alloc);
    script.push(Op::Lock(outer))?;
    script.push(Op::Lock(inner))?;
    script.push(Op::Unlock(inner))?;
    script.push(Op::Unlock(outer))?;
    Ok(script)
}

/// Returns the number of entries in the log of a run: the lines, and a release by each task.
pub fn entries_of(scripts: &[Vec<Op>]) -> usize {
    let mut entries = scripts.len();
    for script in scripts {
        entries = entries.saturating_add(script.len());
    }
    entries
}

/// Generates a number below the bound.
fn below(random: &mut Pcg32, bound: u16) -> u16
    requires { 0 < bound }
    ensures { result < bound }
{
    (random.next_word() % u32::from(bound)) as u16
}

/// Generates the parts of one scene.
#[derive(Drop)]
struct Draw {
    random: Pcg32,
    tasks: u16,
    mutexes: u16,
    /// The mutex of the last line that locks one.
    last: MutexNo,
    ghost few_tasks: { tasks ≤ MOST_TASKS },
    ghost some_mutexes: { 0 < mutexes },
    ghost few_mutexes: { mutexes ≤ MOST_MUTEXES },
}

impl Draw {
    /// Generates the numbers of tasks and mutexes: mostly more tasks than mutexes, so that tasks wait.
    fn new(seed: u64) -> Draw {
        let mut random = Pcg32::new(seed, 54);
        let tasks = 1 + below(&mut random, MOST_TASKS);
        let mutexes = 1 + below(&mut random, MOST_MUTEXES);
        Draw {
            random,
            tasks,
            mutexes,
            last: MutexNo(1),
        }
    }

    /// Generates a number below the bound.
    fn below(&mut self, bound: u16) -> u16
        requires { 0 < bound }
        ensures { result < bound }
    {
        below(&mut self.random, bound)
    }

    fn prio(&mut self) -> Prio {
        let level = 1 + self.below(99);
        Prio::new(level).unwrap()
    }

    /// Generates a protocol: most are PRIO_INHERIT, some of them recursive, and ceilings are high enough for most tasks.
    fn protocol(&mut self) -> Protocol {
        match self.below(8) {
            0 => Protocol::None,
            1 | 2 => {
                let level = 40 + self.below(60);
                Protocol::Protect(Prio::new(level).unwrap())
            }
            3 | 4 => Protocol::InheritRecursive,
            _ => Protocol::Inherit,
        }
    }

    /// Generates a task number: mostly a known one, sometimes 0 or the one after the last.
    fn task(&mut self) -> TaskNo {
        TaskNo(self.below(self.tasks + 2))
    }

    /// Generates a mutex number: mostly a known one, sometimes 0 or the one after the last.
    fn mutex(&mut self) -> MutexNo {
        MutexNo(match self.below(16) {
            0 => self.below(self.mutexes + 2),
            _ => 1 + self.below(self.mutexes),
        })
    }

    /// Generates a step of a task: mostly a lock, or an unlock of what it locked last.
    fn op(&mut self, actor: TaskNo) -> Op {
        match self.below(22) {
            0..9 => {
                self.last = self.mutex();
                Op::Lock(self.last)
            }
            9 => Op::Try(self.mutex()),
            10..14 => Op::Unlock(self.last),
            14 | 15 => Op::Unlock(self.mutex()),
            16 => Op::ReleaseAll,
            17 => Op::Cancel(self.task()),
            18 => Op::SetBase(self.task(), self.below(110)),
            19 => Op::SetBase(actor, 1 + self.below(99)),
            _ => Op::SetCeiling(self.mutex(), 40 + self.below(70)),
        }
    }
}
