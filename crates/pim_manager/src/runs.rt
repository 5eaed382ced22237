//! Many steps, one after another.

ghost use Rattle.std.specs.Prelude.{◌≡◌, length, IfOk, OnErr};
ghost use Rattle.std.specs.List.{fold};
ghost use Rattle.pim_base.specs.Chains.{HasCycle};
ghost use Rattle.pim_base.specs.Steps.{after};
ghost use Rattle.pim_base.specs.Runs.{IsRun};
ghost use Rattle.pim_manager.specs.Entries.{entries, replies_of};

use crate::manager::Manager;
use pim_base::{Reply, Step};
use std::alloc::{AllocError, Global};

impl Manager {
    /// Makes all steps, one after another. With the model's replies they are a run.
    pub fn run(&mut self, steps: &[Step])
        ensures state { self.new ≡ fold after self.old steps.now }
        ensures run { IsRun self.old (entries steps.now (replies_of self.old steps.now)) self.new }
        ensures no_cycle { ¬ HasCycle self.new }
    {
        for step in steps {
            self.step(*step);
        }
        // The contract of this call gives the proof that the state is steady.
        let _steady = self.tasks();
    }

    /// Makes all steps, one after another, and returns their replies.
    ///
    /// # Errors
    ///
    /// Returns `AllocError` if out of memory, before the first step. Nothing has changed then.
    pub fn run_replies(&mut self, alloc: Global, steps: &[Step]) -> Result<Vec<Reply>, AllocError>
        ensures run { IfOk result (λ replies. IsRun self.old (entries steps.now replies.items) self.new) }
        ensures count { IfOk result (λ replies. length replies.items ≡ length steps.now) }
        ensures err { OnErr result (self.new ≡ self.old) }
    {
        let mut replies = Vec::with_capacity(alloc, steps.len())?;
        for step in steps {
            let reply = self.step(*step).reply;
            // There is room for the reply to each step.
            replies.push(reply).unwrap();
        }
        Ok(replies)
    }
}
