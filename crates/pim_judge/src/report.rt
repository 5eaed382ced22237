//! The lines of a report, for a printer.
ghost use Rattle.std.specs.Prelude.{◌≡◌, ◌++◌, flat_map, IfOk, OnOk};
ghost use Rattle.pim_base.specs.Reports.{agrees, reply_line, accepted};
ghost use Rattle.pim_judge.specs.Printed.{line_of, shown_lines};

use crate::fault::Fault;
use crate::printer::Printer;
use pim_base::Reply;
use pim_manager::TrackedManager;
use pim_page::{Page, Sink};
use std::alloc::AllocError;

impl<'a, W: Sink> Printer<'a, W> {
    ghost use Rattle.pim_judge.specs.Taken.{Takes};

    /// Adds the line of the reply to the manager's last step, and one for each task whose priority that step changed.
    /// If the recorded reply differs it adds both lines of the rejection instead. Returns whether the replies agree.
    #[tactic(auto, using(crate::proofs::PrintingLemmas::prints_unwritten), unfolding(crate::specs::Printed::shown_lines))]
    pub(crate) fn step(
        &mut self,
        number: u32,
        reply: &Reply,
        recorded: &Option<Reply>,
        manager: &TrackedManager,
    ) -> Result<bool, Fault>
        ensures lines { Takes W.told self.old self.new (shown_lines number reply.now recorded.now manager.now.changed) result }
        ensures agrees { IfOk result (λ goes_on. goes_on ≡ agrees recorded.now reply.now) }
    {
        match recorded {
            Some(recorded) if recorded != reply => {
                self.page.rejection(number, reply, recorded)?;
                Ok(false)
            }
            _ => {
                answer(self.page, number, reply, manager)?;
                self.write_if_full()?;
                Ok(true)
            }
        }
    }

    /// Adds the last line of a report in which no recorded reply differs.
    #[tactic(auto, using(crate::proofs::PrintingLemmas::prints_unwritten))]
    pub(crate) fn accepted(&mut self, count: u32) -> Result<(), Fault>
        ensures { Takes W.told self.old self.new (accepted count) result }
    {
        self.page.accepted(count)?;
        Ok(())
    }
}

/// Adds the line of the reply to the manager's last step, and one for each task whose priority that step changed.
fn answer(
    page: &mut Page,
    number: u32,
    reply: &Reply,
    manager: &TrackedManager,
) -> Result<(), AllocError>
    ensures { OnOk result (page.new ≡ page.old ++ (reply_line number reply.now ++ flat_map line_of manager.now.changed)) }
{
    page.reply_line(number, reply)?;
    for task in manager.changed() {
        page.changed_line(task.task, task.prio, task.reason)?;
    }
    Ok(())
}
