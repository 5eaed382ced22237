//! The trace of a run.
ghost use Rattle.std.specs.Prelude.{◌≡◌, [], flat_map, IfOk};
ghost use Rattle.pim_base.specs.Texts.{IsWithinLimits};
ghost use Rattle.pim_base.specs.Recordings.{recording, text_of};
ghost use Rattle.pim_text.specs.Reading.{trace_of};
ghost use Rattle.pim_page.specs.Printed.{entry_text};
ghost use Rattle.pim_judge.specs.Printed.{declarations_text};
ghost use Rattle.pim_judge.specs.Prints.{Prints};
ghost use Rattle.pim_judge.specs.Taken.{Takes};

use crate::fault::Fault;
use crate::printer::Printer;
use pim_base::Entry;
use pim_page::{Page, Sink};
use pim_text::Text;
use std::alloc::{AllocError, Global};

/// Writes the trace of these entries, with the declarations of a script, which must be within the limits of a text.
///
/// # Errors
///
/// Returns `Fault::Write` if a write fails, and `Fault::Memory` if out of memory. A prefix of the trace was written then.
pub fn print_trace<W: Sink>(
    alloc: Global,
    writer: &mut W,
    script: &Text,
    entries: &[Entry],
) -> Result<(), Fault>
    requires limits { IsWithinLimits (trace_of script.now) }
    ensures { Prints (W.told writer.old) (W.told writer.new)
        (text_of (recording (trace_of script.now) entries.now)) [] result }
{
    let mut page = declaring(alloc, script)?;
    let mut printer = Printer::new(writer, &mut page);
    print_entries(&mut printer, entries)?;
    printer.write()
}

/// Adds the lines of these entries.
fn print_entries<W: Sink>(printer: &mut Printer<'_, W>, entries: &[Entry]) -> Result<(), Fault>
    ensures { Takes W.told printer.old printer.new (flat_map entry_text entries.now) result }
{
    for entry in entries {
        print_entry(printer, entry)?;
    }
    Ok(())
}

/// Adds the line of an entry.
#[tactic(auto, using(crate::proofs::PrintingLemmas::prints_unwritten))]
fn print_entry<W: Sink>(printer: &mut Printer<'_, W>, entry: &Entry) -> Result<(), Fault>
    ensures { Takes W.told printer.old printer.new (entry_text entry.now) result }
{
    printer.page.entry(entry)?;
    printer.write_if_full()
}

/// Returns a page of the lines before the steps: the version, and what the text declares.
fn declaring(alloc: Global, text: &Text) -> Result<Page, AllocError>
    requires limits { IsWithinLimits (trace_of text.now) }
    ensures { IfOk result (λ page. page ≡ declarations_text (trace_of text.now)) }
{
    let mut page = Page::new(alloc)?;
    page.version(text.version)?;
    page.tasks(&text.bases)?;
    page.mutexes(&text.protocols)?;
    Ok(page)
}
