//! The lines that are not yet written, and those of a report.
ghost use Rattle.std.specs.Prelude.{◌≡◌, ◌↔◌, ◌++◌, ◌≤◌, ◌+◌, [], length, take, IsTrue, OnOk, IfOk};
ghost use Rattle.pim_base.specs.Spelling.{refusal_word};
ghost use Rattle.pim_base.specs.Reports.{reply_text, reply_line, differing_line, rejected, accepted};
ghost use Rattle.pim_page.specs.Printed.{reason_text, changed_line};
ghost use Rattle.pim_page.specs.declared.page.TheConstants.{FULL};

use crate::numerals::Numerals;
use crate::puts::{put, put_number, put_slice};
use pim_base::{Prio, Reason, Reply, TaskNo};
use std::alloc::{AllocError, Global};
use std::marker::Model;

/// A page with this many bytes is full, and is to be written.
pub const FULL: usize = 65_536;

/// More bytes than one step adds: the line of its reply, and 256 lines of at most 38 bytes.
const STEP: usize = 10_240;

/// More bytes than any line has.
const LINE: usize = 128;

/// A buffer of whole lines, in the order in which they are written.
///
/// In contracts its value is the list of their bytes. A call that adds a line fails only if an allocation fails.
#[derive(Drop)]
pub struct Page {
    // The first `used` bytes are those of the lines.
    pub(crate) row: Vec<u8>,
    pub(crate) used: usize,
    pub(crate) numerals: Numerals,
}

impl Model for Page {
    ghost use Rattle.std.specs.Prelude.{List, ℕ, ◌≤◌, length, take};

    ghost Value = { List ℕ };

    ghost view = { λ page. take page.used page.row.items };

    ghost invariant = { λ page. page.used ≤ length page.row.items };
}

impl Page {
    /// Returns an empty page. It has room for a full page, and for one step more.
    pub fn new(alloc: Global) -> Result<Page, AllocError>
        ensures { IfOk result (λ page. page ≡ []) }
    {
        let row = Vec::with_capacity(alloc, FULL + STEP)?;
        let numerals = Numerals::new(alloc)?;
        Ok(Page {
            row,
            used: 0,
            numerals,
        })
    }

    /// Returns whether the page is full.
    pub fn is_full(&self) -> bool
        ensures { IsTrue result ↔ FULL ≤ length self.now }
    {
        self.used >= FULL
    }

    /// Returns the bytes.
    pub fn as_slice(&self) -> &[u8]
        ensures { result.now ≡ self.now }
    {
        &self.row[..self.used]
    }

    /// Removes all bytes. The allocation is kept.
    pub fn clear(&mut self)
        ensures { self.new ≡ [] }
    {
        self.used = 0;
    }

    /// Adds both lines of a step whose recorded reply differs from the model's.
    pub fn rejection(
        &mut self,
        number: u32,
        reply: &Reply,
        recorded: &Reply,
    ) -> Result<(), AllocError>
        ensures { OnOk result
            (self.new ≡ self.old ++ (differing_line number reply.now recorded.now ++ rejected number)) }
    {
        self.differing_line(number, reply, recorded)?;
        self.rejected(number)
    }

    /// Adds the last line of a report in which no recorded reply differs.
    #[tactic(auto, unfolding(pim_base::specs::Reports::accepted))]
    pub fn accepted(&mut self, count: u32) -> Result<(), AllocError>
        ensures { OnOk result (self.new ≡ self.old ++ accepted count) }
    {
        make_room(&mut self.row, self.used)?;
        let row = self.row.as_mut_slice();
        let at = put(row, self.used, b"accepted ");
        let at = put_number(&self.numerals, row, at, count);
        self.used = put(row, at, b"\n");
        Ok(())
    }

    /// Adds the line of a step's reply.
    #[tactic(auto, unfolding(pim_base::specs::Reports::reply_line))]
    pub fn reply_line(&mut self, number: u32, reply: &Reply) -> Result<(), AllocError>
        ensures { OnOk result (self.new ≡ self.old ++ reply_line number reply.now) }
    {
        make_room(&mut self.row, self.used)?;
        let row = self.row.as_mut_slice();
        let at = put_number(&self.numerals, row, self.used, number);
        let at = put(row, at, b" ");
        let at = put_reply(&self.numerals, row, at, reply);
        self.used = put(row, at, b"\n");
        Ok(())
    }

    /// Adds the line of a task whose priority a step changed: its priority after the step, and why.
    #[tactic(auto, unfolding(crate::specs::Printed::changed_line))]
    pub fn changed_line(
        &mut self,
        task: TaskNo,
        prio: Prio,
        reason: Reason,
    ) -> Result<(), AllocError>
        ensures { OnOk result (self.new ≡ self.old ++ changed_line task prio reason) }
    {
        make_room(&mut self.row, self.used)?;
        let row = self.row.as_mut_slice();
        let at = put(row, self.used, b"  task ");
        let at = put_number(&self.numerals, row, at, u32::from(task.get()));
        let at = put(row, at, b" at ");
        let at = put_number(&self.numerals, row, at, u32::from(prio.get()));
        let at = put(row, at, b" ");
        let at = put_reason(&self.numerals, row, at, reason);
        self.used = put(row, at, b"\n");
        Ok(())
    }

    /// Adds the line with a step's reply and the recorded one.
    #[tactic(auto, unfolding(pim_base::specs::Reports::differing_line))]
    fn differing_line(
        &mut self,
        number: u32,
        reply: &Reply,
        recorded: &Reply,
    ) -> Result<(), AllocError>
        ensures { OnOk result (self.new ≡ self.old ++ differing_line number reply.now recorded.now) }
    {
        make_room(&mut self.row, self.used)?;
        let row = self.row.as_mut_slice();
        let at = put_number(&self.numerals, row, self.used, number);
        let at = put(row, at, b" ");
        let at = put_reply(&self.numerals, row, at, reply);
        let at = put(row, at, b" but recorded ");
        let at = put_reply(&self.numerals, row, at, recorded);
        self.used = put(row, at, b"\n");
        Ok(())
    }

    /// Adds the last line of a report in which a recorded reply differs.
    #[tactic(auto, unfolding(pim_base::specs::Reports::rejected))]
    pub fn rejected(&mut self, number: u32) -> Result<(), AllocError>
        ensures { OnOk result (self.new ≡ self.old ++ rejected number) }
    {
        make_room(&mut self.row, self.used)?;
        let row = self.row.as_mut_slice();
        let at = put(row, self.used, b"rejected ");
        let at = put_number(&self.numerals, row, at, number);
        self.used = put(row, at, b"\n");
        Ok(())
    }
}

/// Makes the buffer long enough for one more line after the bytes in use.
#[inline(always)]
pub(crate) fn make_room(row: &mut Vec<u8>, used: usize) -> Result<(), AllocError>
    requires { used ≤ length row.old.items }
    ensures longer { used ≤ length row.new.items }
    ensures same { take used row.new.items ≡ take used row.old.items }
    ensures room { OnOk result (used + 128 ≤ length row.new.items) }
{
    if row.len() - used < LINE {
        row.extend_from_slice(&[0; LINE])?;
    }
    Ok(())
}

/// Writes the text of a reply.
#[inline(always)]
pub(crate) fn put_reply(numerals: &Numerals, row: &mut [u8], at: usize, reply: &Reply) -> usize
    requires { at + 19 ≤ length row.old }
    ensures end { result ≤ at + 19 }
    ensures text { take result row.new ≡ take at row.old ++ reply_text reply.now }
{
    match reply {
        Reply::Granted => put(row, at, b"granted"),
        Reply::Queued => put(row, at, b"queued"),
        Reply::Freed => put(row, at, b"freed"),
        Reply::Handed(task) => {
            let at = put(row, at, b"handed ");
            put_number(numerals, row, at, u32::from(task.get()))
        }
        Reply::Released(count) => {
            let at = put(row, at, b"released ");
            put_number(numerals, row, at, u32::from(*count))
        }
        Reply::Withdrawn => put(row, at, b"withdrawn"),
        Reply::Set => put(row, at, b"set"),
        Reply::Kept => put(row, at, b"kept"),
        Reply::Refused(refusal) => {
            let at = put(row, at, b"refused ");
            put_slice(row, at, refusal.name().as_bytes())
        }
    }
}

/// Writes the text of a reason.
#[inline(always)]
fn put_reason(numerals: &Numerals, row: &mut [u8], at: usize, reason: Reason) -> usize
    requires { at + 34 ≤ length row.old }
    ensures end { result ≤ at + 34 }
    ensures text { take result row.new ≡ take at row.old ++ reason_text reason }
{
    match reason {
        Reason::Base => put(row, at, b"base"),
        Reason::Ceiling(mutex) => {
            let at = put(row, at, b"ceiling ");
            put_number(numerals, row, at, u32::from(mutex.get()))
        }
        Reason::Waiter(task, mutex) => {
            let at = put(row, at, b"waiter ");
            let at = put_number(numerals, row, at, u32::from(task.get()));
            let at = put(row, at, b" mutex ");
            put_number(numerals, row, at, u32::from(mutex.get()))
        }
    }
}
