//! The report of a trace, with the states of the plain manager.

ghost use Rattle.pim_base.specs.Texts.{IsWithinLimits};
ghost use Rattle.pim_text.specs.Reading.{trace_of};

use pim_base::{MAX_TASKS, Prio, StepLine, TaskNo, Verdict};
use pim_page::Page;
use pim_plain::PlainManager;
use pim_text::Text;
use std::alloc::{AllocError, Global};

/// What each task executes at, that of task 1 first; `None` after the last task.
type Priorities = [Option<Prio>; MAX_TASKS];

/// Returns the report of a text, and its verdict.
///
/// # Errors
///
/// Returns `AllocError` if out of memory.
pub fn report_of(alloc: Global, text: &Text) -> Result<(Page, Verdict), AllocError>
    requires limits { IsWithinLimits (trace_of text.now) }
{
    let mut plain = PlainManager::new(alloc, &text.bases, &text.protocols, 1)?;
    let mut page = Page::new(alloc)?;
    let verdict = make_steps(&mut page, &mut plain, &text.lines)?;
    Ok((page, verdict))
}

/// Makes the steps, and adds their lines, up to the first whose recorded reply isn't that of the manager.
fn make_steps(
    page: &mut Page,
    plain: &mut PlainManager,
    lines: &[StepLine],
) -> Result<Verdict, AllocError> {
    let mut number: u32 = 0;
    for line in lines {
        number = number.saturating_add(1);
        if !make_step(page, plain, number, line)? {
            return Ok(Verdict::Rejected(number));
        }
    }
    page.accepted(number)?;
    Ok(Verdict::Accepted(number))
}

/// Makes a step, and adds its lines. Returns whether the recorded reply is that of the manager.
fn make_step(
    page: &mut Page,
    plain: &mut PlainManager,
    number: u32,
    line: &StepLine,
) -> Result<bool, AllocError> {
    let before = priorities(plain);
    let reply = plain.step(line.step);
    match &line.recorded {
        Some(recorded) if *recorded != reply => {
            page.rejection(number, &reply, recorded)?;
            Ok(false)
        }
        _ => {
            page.reply_line(number, &reply)?;
            add_changes(page, plain, &before)?;
            Ok(true)
        }
    }
}

/// Returns what each task executes at.
fn priorities(plain: &PlainManager) -> Priorities {
    let mut all = [None; MAX_TASKS];
    for index in 0..MAX_TASKS {
        all[index] = plain.effective(TaskNo(index as u16 + 1));
    }
    all
}

/// Adds a line for each task that executes at another priority than before.
fn add_changes(
    page: &mut Page,
    plain: &PlainManager,
    before: &Priorities,
) -> Result<(), AllocError> {
    for index in 0..MAX_TASKS {
        let task = TaskNo(index as u16 + 1);
        let now = plain.effective(task);
        if now == before[index] {
            continue;
        }
        if let (Some(prio), Some(reason)) = (now, plain.reason(task)) {
            page.changed_line(task, prio, reason)?;
        }
    }
    Ok(())
}
