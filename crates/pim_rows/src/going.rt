//! The world, and the times off a CPU, after one line more.

ghost use Rattle.std.specs.Prelude.{◌≡◌, ℕ, List, false, [], Some, IfOk};
ghost use Rattle.pim_waits.specs.Touched.{Touches};
ghost use Rattle.pim_world.specs.Touching.{declares};
ghost use Rattle.pim_world.specs.After.{after};
ghost use Rattle.pim_world.specs.Held.{world_of, touched_of};
ghost use Rattle.pim_rows.specs.Moments.{Moment, now, followed_by};
ghost use Rattle.pim_world.specs.Standing.{is_off};
ghost use Rattle.pim_rows.specs.Found.{actor};
ghost use Rattle.pim_rows.specs.Kept.{kept_of};
ghost use Rattle.pim_rows.specs.OffTimes.{AreOffTimes, lost_time};

use crate::off_times::OffTimes;
use pim_fact_lines::Line;
use pim_waits::ThreadPlace;
use pim_world::World;
use std::alloc::{AllocError, Global};

/// Goes on by a line with the world, and with the times off a CPU. Takes the thread of the line,
/// and whether that was off before.
///
/// # Errors
///
/// Returns `AllocError` if out of memory.
pub(crate) fn go(
    world: &mut World,
    off_times: &mut OffTimes,
    alloc: Global,
    line: &Line,
    thread: Option<ThreadPlace>,
    was_off: bool,
) -> Result<(), AllocError>
    ensures world { IfOk result (λ _. world_of world.new ≡ after (world_of world.old) line.now) }
    ensures touched { IfOk result (λ _. declares line.now ≡ false
        → Touches (world_of world.old).state (world_of world.new).state [] (touched_of world.new)) }
    ensures off { IfOk result
        (λ _. (ms : List Moment) → world_of world.old ≡ now ms → thread ≡ actor (now ms) line.now
        → ((t : ℕ) → thread ≡ Some t → was_off ≡ is_off t (now ms))
        → AreOffTimes (kept_of off_times.old.starts) ms
        → AreOffTimes (kept_of off_times.new.starts) (followed_by ms line.now)) }
{
    if let Some(time) = lost_time(line) {
        off_times.lose(world, time)?;
        world.go(alloc, line)?;
        return Ok(());
    }
    world.go(alloc, line)?;
    off_times.follow(world, thread, was_off)?;
    Ok(())
}

/// Returns the time of a `lost` line, or `None` of another one.
fn lost_time(line: &Line) -> Option<u64>
    ensures { result ≡ lost_time line.now }
{
    match line {
        Line::Lost { time } => Some(*time),
        Line::Thread(_, _)
        | Line::Mutex {
            number: _,
            is_recursive: _,
            protocol: _,
        }
        | Line::Object(_)
        | Line::Unseen
        | Line::Fact {
            time: _,
            thread: _,
            what: _,
        }
        | Line::End { time: _ } => None,
    }
}
