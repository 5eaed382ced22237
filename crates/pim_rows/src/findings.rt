//! What is found in a text of facts.

ghost use Rattle.std.specs.Prelude.{◌≡◌, List, IfOk, MatchResult};
ghost use Rattle.pim_fact_lines.specs.Texts.{lines_of};
ghost use Rattle.pim_world.specs.Texts.{IsFault};
ghost use Rattle.pim_rows.specs.Moments.{Moment};
ghost use Rattle.pim_rows.specs.Tracking.{Tracks};
ghost use Rattle.pim_rows.specs.Findings.{AreFound, AreOf};

use crate::tracker::Tracker;
use pim_fact_lines::{is_header, next_line};
use pim_world::{FactsFault, Why};
use std::alloc::{AllocError, Global};

/// What is found in a text of facts.
#[derive(Drop)]
pub struct Findings {
    /// The bytes of the rows.
    pub rows: Vec<u8>,
    /// 1 if a wait was inverted or there is a deadlock at the end, else 0.
    pub status: u8,
}

/// Returns what is found in the text of facts that bytes spell. It reads each line once.
///
/// # Errors
///
/// Returns `Line` with the number of the first invalid line, and why it is invalid; `Memory` if out
/// of memory. Without a byte it is line 1.
pub fn findings_of(alloc: Global, bytes: &[u8]) -> Result<Findings, FactsFault>
    ensures { MatchResult result (AreFound (lines_of bytes.now)) (IsFault (lines_of bytes.now)) }
{
    if bytes.is_empty() {
        return Err(FactsFault::Line(1, Why::Header));
    }
    let (first, mut rest) = next_line(bytes);
    if !is_header(first) {
        return Err(FactsFault::Line(1, Why::Header));
    }
    let mut tracker = Tracker::new(alloc);
    let mut number = 1;
    while !rest.is_empty() {
        let (line, after) = next_line(rest);
        number += 1;
        if let Some(why) = tracker.take(alloc, line)? {
            return Err(FactsFault::Line(number, why));
        }
        rest = after;
    }
    Ok(finished(alloc, tracker)?)
}

/// Returns what a tracker found, after the last line.
fn finished(alloc: Global, tracker: Tracker) -> Result<Findings, AllocError>
    requires { (ms : List Moment) × Tracks tracker ms }
    ensures { IfOk result (λ found. (ms : List Moment) → Tracks tracker ms → AreOf found ms) }
{
    let (rows, is_bad) = tracker.finish(alloc)?;
    Ok(Findings {
        rows,
        status: if is_bad { 1 } else { 0 },
    })
}
