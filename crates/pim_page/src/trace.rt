//! The lines of a trace.
ghost use Rattle.std.specs.Prelude.{◌≡◌, ◌<◌, ◌≤◌, ◌+◌, ◌^◌, ◌++◌, length, take, decimal, OnOk};
ghost use Rattle.pim_base.specs.Spelling.{version_line, spelled};
ghost use Rattle.pim_base.specs.Recordings.{ended};
ghost use Rattle.pim_base.specs.declared.lines.Line.TheVariants as lines;
ghost use Rattle.pim_page.specs.Printed.{protocol_text, op_text, tasks_text, mutexes_text, entry_text};

use crate::numerals::Numerals;
use crate::page::{Page, make_room, put_reply};
use crate::puts::{put, put_number};
use pim_base::{Entry, Op, Prio, Protocol};
use std::alloc::AllocError;

impl Page {
    /// Adds the first line, which names the version of the format.
    pub fn version(&mut self, version: u8) -> Result<(), AllocError>
        ensures { OnOk result (self.new ≡ self.old ++ ended (version_line version)) }
    {
        make_room(&mut self.row, self.used)?;
        let row = self.row.as_mut_slice();
        let at = put(row, self.used, b"pim ");
        let at = put_number(&self.numerals, row, at, u32::from(version));
        self.used = put(row, at, b"\n");
        Ok(())
    }

    /// Adds the lines that declare the tasks with these bases.
    pub fn tasks(&mut self, bases: &[Prio]) -> Result<(), AllocError>
        requires few { length bases.now < 2 ^ 32 }
        ensures { OnOk result (self.new ≡ self.old ++ tasks_text 1 bases.now) }
    {
        for (index, base) in bases.iter().enumerate() {
            self.task(index as u32 + 1, *base)?;
        }
        Ok(())
    }

    /// Adds the lines that declare the mutexes with these protocols.
    pub fn mutexes(&mut self, protocols: &[Protocol]) -> Result<(), AllocError>
        requires few { length protocols.now < 2 ^ 32 }
        ensures { OnOk result (self.new ≡ self.old ++ mutexes_text 1 protocols.now) }
    {
        for (index, protocol) in protocols.iter().enumerate() {
            self.mutex(index as u32 + 1, *protocol)?;
        }
        Ok(())
    }

    /// Adds the line that declares a task.
    fn task(&mut self, number: u32, base: Prio) -> Result<(), AllocError>
        ensures { OnOk result (self.new ≡ self.old ++ ended (spelled (lines.Task number base))) }
    {
        make_room(&mut self.row, self.used)?;
        let row = self.row.as_mut_slice();
        let at = put(row, self.used, b"task ");
        let at = put_number(&self.numerals, row, at, number);
        let at = put(row, at, b" ");
        let at = put_number(&self.numerals, row, at, u32::from(base.get()));
        self.used = put(row, at, b"\n");
        Ok(())
    }

    /// Adds the line that declares a mutex.
    #[tactic(auto, using(crate::proofs::TraceLineLemmas::mutex_spelled))]
    fn mutex(&mut self, number: u32, protocol: Protocol) -> Result<(), AllocError>
        ensures { OnOk result (self.new ≡ self.old ++ ended (spelled (lines.Mutex number protocol))) }
    {
        make_room(&mut self.row, self.used)?;
        let row = self.row.as_mut_slice();
        let at = put(row, self.used, b"mutex ");
        let at = put_number(&self.numerals, row, at, number);
        let at = put(row, at, b" ");
        let at = put_protocol(&self.numerals, row, at, protocol);
        self.used = put(row, at, b"\n");
        Ok(())
    }

    /// Adds the line of a step, with its reply as the recorded one.
    pub fn entry(&mut self, entry: &Entry) -> Result<(), AllocError>
        ensures { OnOk result (self.new ≡ self.old ++ entry_text entry.now) }
    {
        make_room(&mut self.row, self.used)?;
        let row = self.row.as_mut_slice();
        let at = put_number(
            &self.numerals,
            row,
            self.used,
            u32::from(entry.step.actor.get()),
        );
        let at = put(row, at, b" ");
        let at = put_op(&self.numerals, row, at, &entry.step.op);
        let at = put(row, at, b" = ");
        let at = put_reply(&self.numerals, row, at, &entry.reply);
        self.used = put(row, at, b"\n");
        Ok(())
    }
}

/// Writes the text of a protocol.
fn put_protocol(numerals: &Numerals, row: &mut [u8], at: usize, protocol: Protocol) -> usize
    requires { at + 18 ≤ length row.old }
    ensures end { result ≤ at + 18 }
    ensures text { take result row.new ≡ take at row.old ++ protocol_text protocol }
{
    match protocol {
        Protocol::None => put(row, at, b"none"),
        Protocol::Inherit => put(row, at, b"inherit"),
        Protocol::InheritRecursive => put(row, at, b"inherit recursive"),
        Protocol::Protect(ceiling) => put_with(numerals, row, at, b"protect ", ceiling.get()),
    }
}

/// Writes the text of an operation.
fn put_op(numerals: &Numerals, row: &mut [u8], at: usize, op: &Op) -> usize
    requires { at + 26 ≤ length row.old }
    ensures end { result ≤ at + 26 }
    ensures text { take result row.new ≡ take at row.old ++ op_text op.now }
{
    match op {
        Op::Lock(mutex) => put_with(numerals, row, at, b"lock ", mutex.get()),
        Op::Try(mutex) => put_with(numerals, row, at, b"try ", mutex.get()),
        Op::Unlock(mutex) => put_with(numerals, row, at, b"unlock ", mutex.get()),
        Op::ReleaseAll => put(row, at, b"release"),
        Op::Cancel(task) => put_with(numerals, row, at, b"cancel ", task.get()),
        Op::SetBase(task, level) => {
            let at = put_with(numerals, row, at, b"base ", task.get());
            put_with(numerals, row, at, b" ", *level)
        }
        Op::SetCeiling(mutex, level) => {
            let at = put_with(numerals, row, at, b"ceil ", mutex.get());
            put_with(numerals, row, at, b" ", *level)
        }
    }
}

/// Writes a word and a number.
fn put_with<const N: usize>(
    numerals: &Numerals,
    row: &mut [u8],
    at: usize,
    word: &[u8; N],
    number: u16,
) -> usize
    requires { at + N + 10 ≤ length row.old }
    ensures end { result ≤ at + N + 10 }
    ensures text { take result row.new ≡ take at row.old ++ (word.now ++ decimal number) }
{
    let at = put(row, at, word);
    put_number(numerals, row, at, u32::from(number))
}
