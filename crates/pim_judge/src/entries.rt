//! The verdict of entries, and the line that says it.
ghost use Rattle.std.specs.Prelude.{◌≡◌, ◌<◌, ◌^◌, [], length, map, Some};
ghost use Rattle.pim_base.specs.Reports.{agrees, verdict_from};
ghost use Rattle.pim_base.specs.Recordings.{entry_line};
ghost use Rattle.pim_judge.specs.Printed.{verdict_line};
ghost use Rattle.pim_judge.specs.Prints.{Prints};

use crate::fault::Fault;
use crate::printer::Printer;
use pim_base::{Entry, Reply, Verdict};
use pim_manager::Manager;
use pim_page::{Page, Sink};
use std::alloc::Global;

/// Makes the steps of the entries, fewer than 2^32, with their replies as the recorded ones, and returns the report's
/// verdict: `Accepted`, or `Rejected` with the number of the first step whose reply differs.
pub fn judge_entries(manager: &mut Manager, entries: &[Entry]) -> Verdict
    requires few { length entries.now < 2 ^ 32 }
    ensures { result ≡ verdict_from 1 manager.old (map entry_line entries.now) }
{
    for (index, entry) in entries.iter().enumerate() {
        let reply = manager.step(entry.step).reply;
        if !is_recorded(entry, &reply) {
            return Verdict::Rejected(index as u32 + 1);
        }
    }
    Verdict::Accepted(entries.len() as u32)
}

/// Returns whether this is the reply of the entry.
fn is_recorded(entry: &Entry, reply: &Reply) -> bool
    ensures { result ≡ agrees (Some entry.now.reply) reply.now }
{
    entry.reply == *reply
}

/// Writes the last line of a report.
///
/// # Errors
///
/// Returns `Fault::Write` if the write fails, and `Fault::Memory` if out of memory.
#[tactic(auto, using(crate::proofs::PrintingLemmas::prints_unwritten))]
pub fn print_verdict<W: Sink>(alloc: Global, writer: &mut W, verdict: &Verdict) -> Result<(), Fault>
    ensures { Prints (W.told writer.old) (W.told writer.new) (verdict_line verdict.now) [] result }
{
    let mut page = Page::new(alloc)?;
    match verdict {
        Verdict::Accepted(count) => page.accepted(*count)?,
        Verdict::Rejected(number) => page.rejected(*number)?,
    }
    let mut printer = Printer::new(writer, &mut page);
    printer.write()
}
