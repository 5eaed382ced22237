//! The result of a soak, in numbers.

ghost use Rattle.std.specs.Prelude.{◌≡◌, ◌+◌, ◌-◌, ◌^◌, IsFalse, IsTrue, min};

use std::fmt;

/// The numbers of runs and reads, and of their differences from the plain manager.
#[derive(Clone, Copy, Debug, Default, PartialEq, Eq)]
pub struct Figures {
    /// The number of scenes that were run.
    pub scripts: u64,
    /// The number of entries in their logs.
    pub steps: u64,
    /// The entries that were queued, refused as a deadlock, and refused for a ceiling.
    pub queued: u64,
    pub deadlocks: u64,
    pub ceilings: u64,
    /// The reads, and those of them that differ from the reader's last one of that task.
    pub looks: u64,
    pub distinct: u64,
    /// The replies, reads and getters of the final manager that differ from the plain manager.
    pub differences: u64,
}

impl Figures {
    /// Adds the figures of another soak.
    pub fn add(&mut self, other: &Figures)
        ensures scripts { self.new.scripts ≡ min (self.old.scripts + other.now.scripts) (2 ^ 64 - 1) }
        ensures steps { self.new.steps ≡ min (self.old.steps + other.now.steps) (2 ^ 64 - 1) }
        ensures queued { self.new.queued ≡ min (self.old.queued + other.now.queued) (2 ^ 64 - 1) }
        ensures deadlocks { self.new.deadlocks ≡ min (self.old.deadlocks + other.now.deadlocks) (2 ^ 64 - 1) }
        ensures ceilings { self.new.ceilings ≡ min (self.old.ceilings + other.now.ceilings) (2 ^ 64 - 1) }
        ensures looks { self.new.looks ≡ min (self.old.looks + other.now.looks) (2 ^ 64 - 1) }
        ensures distinct { self.new.distinct ≡ min (self.old.distinct + other.now.distinct) (2 ^ 64 - 1) }
        ensures differences { self.new.differences ≡ min (self.old.differences + other.now.differences) (2 ^ 64 - 1) }
    {
        count(&mut self.scripts, other.scripts);
        count(&mut self.steps, other.steps);
        count(&mut self.queued, other.queued);
        count(&mut self.deadlocks, other.deadlocks);
        count(&mut self.ceilings, other.ceilings);
        count(&mut self.looks, other.looks);
        count(&mut self.distinct, other.distinct);
        count(&mut self.differences, other.differences);
    }

    /// Counts a difference, unless both are the same.
    pub fn expect(&mut self, is_same: bool)
        ensures same { IsTrue is_same → self.new ≡ self.old }
        ensures differs { IsFalse is_same → self.new ≡ record self.old { differences = min (self.old.differences + 1) (2 ^ 64 - 1) } }
    {
        if !is_same {
            count(&mut self.differences, 1);
        }
    }
}

/// Adds to a count, which saturates.
pub fn count(sum: &mut u64, more: u64)
    ensures { sum.new ≡ min (sum.old + more) (2 ^ 64 - 1) }
{
    *sum = sum.saturating_add(more);
}

impl fmt::Display for Figures {
    fn fmt<W: fmt::Write>(&self, f: &mut fmt::Formatter<W>) -> fmt::Result {
        let Figures { scripts, steps, .. } = *self;
        let Figures {
            queued,
            deadlocks,
            ..
        } = *self;
        let Figures {
            ceilings,
            looks,
            ..
        } = *self;
        let Figures {
            distinct,
            differences,
            ..
        } = *self;
        write!(
            f,
            "{scripts} scripts, {steps} steps ({queued} queued, {deadlocks} deadlocks, {ceilings} ceilings), {looks} looks ({distinct} distinct), {differences} differences"
        )
    }
}
