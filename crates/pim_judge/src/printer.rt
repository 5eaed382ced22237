//! Buffered writing of lines.
ghost use Rattle.std.specs.Prelude.{◌≡◌, ◌<◌, length, []};
ghost use Rattle.pim_page.specs.declared.page.TheConstants.{FULL};

use crate::fault::Fault;
use crate::transfer::write_all;
use pim_page::{Page, Sink};

/// A buffered writer of lines: a writer, and a page of what is not yet written.
///
/// Lines go to the page, and the page goes to the writer whenever it is full.
///
/// # Errors
///
/// A call fails with `Fault::Write` if a write fails, and with `Fault::Memory` if an allocation fails. What was written
/// is then a prefix of what was to be printed.
#[derive(Drop)]
pub struct Printer<'a, W> {
    /// What the page is written to.
    pub writer: &'a mut W,
    /// What is not yet written.
    pub page: &'a mut Page,
}

impl<'a, W: Sink> Printer<'a, W> {
    ghost use Rattle.pim_judge.specs.Taken.{Takes};

    /// Returns a printer that writes the bytes of the page first.
    pub fn new(writer: &'a mut W, page: &'a mut Page) -> Printer<'a, W>
        ensures same_writer { result.writer.ghost_name ≡ writer.entry.ghost_name }
        ensures told { result.writer.now ≡ writer.old }
        ensures page { result.page.now ≡ page.old }
    {
        Printer { writer, page }
    }

    /// Writes all that is not yet written, if the page is full.
    pub fn write_if_full(&mut self) -> Result<(), Fault>
        ensures takes { Takes W.told self.old self.new [] result }
        ensures room { length self.new.page.now < FULL }
    {
        if self.page.is_full() {
            self.write()?;
        }
        Ok(())
    }

    /// Writes all that is not yet written.
    pub fn write(&mut self) -> Result<(), Fault>
        ensures takes { Takes W.told self.old self.new [] result }
        ensures all { self.new.page.now ≡ [] }
    {
        let written = write_all(self.writer, self.page.as_slice());
        self.page.clear();
        written
    }
}
