//! The spans that are found in a text of facts.

ghost use Rattle.std.specs.Prelude.{◌≡◌, List, IfOk, MatchResult};
ghost use Rattle.pim_fact_lines.specs.Texts.{lines_of};
ghost use Rattle.pim_world.specs.Texts.{IsFault};
ghost use Rattle.pim_rows.specs.Moments.{Moment};
ghost use Rattle.pim_spans.specs.Following.{Follows};
ghost use Rattle.pim_spans.specs.Found.{AreFound, spans_text};

use crate::follower::Follower;
use crate::window::Window;
use pim_fact_lines::{is_header, next_line};
use pim_world::{FactsFault, Why};
use std::alloc::{AllocError, Global};

/// Returns the bytes of the spans within a window of time, of the text of facts that bytes spell.
/// It reads each line once.
///
/// # Errors
///
/// Returns `Line` with the number of the first invalid line, and why it is invalid; `Memory` if out
/// of memory. Without a byte it is line 1.
pub fn spans_of(alloc: Global, bytes: &[u8], window: Window) -> Result<Vec<u8>, FactsFault>
    ensures { MatchResult result
        (λ spans. AreFound window (lines_of bytes.now) spans.items) (IsFault (lines_of bytes.now)) }
{
    if bytes.is_empty() {
        return Err(FactsFault::Line(1, Why::Header));
    }
    let (first, mut rest) = next_line(bytes);
    if !is_header(first) {
        return Err(FactsFault::Line(1, Why::Header));
    }
    let mut follower = Follower::new(alloc, window);
    let mut number = 1;
    while !rest.is_empty() {
        let (line, after) = next_line(rest);
        number += 1;
        if let Some(why) = follower.take(alloc, line)? {
            return Err(FactsFault::Line(number, why));
        }
        rest = after;
    }
    Ok(written(alloc, &follower)?)
}

/// Returns the bytes of all spans, after the last line.
fn written(alloc: Global, follower: &Follower) -> Result<Vec<u8>, AllocError>
    ensures { IfOk result (λ spans. (ms : List Moment) → Follows follower.now ms
        → spans.items ≡ spans_text follower.now.window ms) }
{
    let mut out = Vec::new(alloc);
    follower.put_all(&mut out)?;
    Ok(out)
}
