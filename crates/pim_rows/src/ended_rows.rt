//! The rows of the wait and of the block that a line ends.

ghost use Rattle.std.specs.Prelude.{◌≡◌, ◌+◌, ◌++◌, ℕ, List, IfOk, IsTrue};
ghost use Rattle.pim_fact_lines.specs.declared.line.Line.{Line};
ghost use Rattle.pim_world.specs.After.{after};
ghost use Rattle.pim_world.specs.Following.{may_follow, may_happen};
ghost use Rattle.pim_world.specs.Held.{world_of};
ghost use Rattle.pim_rows.specs.Moments.{Moment, now, number as number_of, followed_by};
ghost use Rattle.pim_world.specs.Standing.{waits};
ghost use Rattle.pim_rows.specs.Begun.{is_blocked};
ghost use Rattle.pim_rows.specs.Begun.{wait_start, block};
ghost use Rattle.pim_rows.specs.Found.{actor};
ghost use Rattle.pim_rows.specs.Kept.{kept_of};
ghost use Rattle.pim_rows.specs.Rows.{granted, resumed, text_of};
ghost use Rattle.pim_rows.specs.Kept.{AreStarts};
ghost use Rattle.pim_rows.specs.Ending.{HasEnded, ended_tally, ended_of, ArePut};

use crate::block_rows::put_block;
use crate::blocks::Blocks;
use crate::tally::Tally;
use crate::wait_rows::put_wait;
use crate::wait_starts::WaitStarts;
use pim_fact_lines::{Line, What};
use pim_waits::ThreadPlace;
use pim_world::World;
use std::alloc::AllocError;

/// How many rows `wait` a line ended, and how many of them with time inverted.
#[derive(Clone, Copy)]
pub(crate) struct EndedWaits {
    pub(crate) waits: u64,
    pub(crate) inverted: u64,
}

/// Appends the rows of the wait and of the block that a line ends, the one with this number. Takes
/// the world after it, its thread, the times of the wait that it ended, if it ended one, and how
/// what lasted before it began.
///
/// # Errors
///
/// Returns `AllocError` if out of memory.
pub(crate) fn put_ended(
    out: &mut Vec<u8>,
    world: &World,
    line: &Line,
    number: u64,
    thread: Option<ThreadPlace>,
    times: &Option<Tally>,
    starts: &WaitStarts,
    blocks: &Blocks,
) -> Result<EndedWaits, AllocError>
    ensures { IfOk result (λ counts. (ms : List Moment)
        → world_of world.now ≡ after (now ms) line.now → number ≡ number_of ms + 1
        → thread ≡ actor (now ms) line.now → HasEnded times.now thread ms line.now
        → IsTrue (may_follow (now ms) line.now)
        → AreStarts waits wait_start (kept_of starts.now.starts) ms
        → AreStarts is_blocked block (kept_of blocks.now.starts) ms
        → ArePut (ended_of ms line.now) out.old.items out.new.items counts) }
{
    match line {
        Line::Fact {
            time: _,
            thread: _,
            what,
        } => {
            let Some(thread) = thread else {
                return Ok(EndedWaits {
                    waits: 0,
                    inverted: 0,
                });
            };
            let counts = put_wait_of(out, world, number, thread, times, starts)?;
            put_resumed(out, world, number, thread, what, blocks)?;
            Ok(counts)
        }
        Line::Thread(_, _)
        | Line::Mutex {
            number: _,
            is_recursive: _,
            protocol: _,
        }
        | Line::Object(_)
        | Line::Unseen
        | Line::Lost { time: _ }
        | Line::End { time: _ } => Ok(EndedWaits {
            waits: 0,
            inverted: 0,
        }),
    }
}

/// Appends the rows of the wait of a thread that a line ended, if it ended one.
fn put_wait_of(
    out: &mut Vec<u8>,
    world: &World,
    number: u64,
    thread: ThreadPlace,
    times: &Option<Tally>,
    starts: &WaitStarts,
) -> Result<EndedWaits, AllocError>
    ensures { IfOk result (λ counts. (ms : List Moment) (l : Line)
        → world_of world.now ≡ after (now ms) l → number ≡ number_of ms + 1
        → times.now ≡ ended_tally thread ms l
        → AreStarts waits wait_start (kept_of starts.now.starts) ms
        → ArePut (granted (followed_by ms l) ms thread) out.old.items out.new.items counts) }
{
    let Some(times) = times else {
        return Ok(EndedWaits {
            waits: 0,
            inverted: 0,
        });
    };
    let Some(start) = starts.starts.get(thread.0) else {
        return Ok(EndedWaits {
            waits: 0,
            inverted: 0,
        });
    };
    put_wait(out, start, times, world.clock(), number)?;
    Ok(EndedWaits {
        waits: 1,
        inverted: if times.inverted.total() > 0 { 1 } else { 0 },
    })
}

/// Appends the row of the block of a thread if this ended it, with the line of this number, after
/// which the world is this.
fn put_resumed(
    out: &mut Vec<u8>,
    world: &World,
    number: u64,
    thread: ThreadPlace,
    what: &What,
    blocks: &Blocks,
) -> Result<(), AllocError>
    ensures { IfOk result (λ _. (ms : List Moment) (l : Line)
        → world_of world.now ≡ after (now ms) l → number ≡ number_of ms + 1
        → IsTrue (may_happen (now ms) thread what.now)
        → AreStarts is_blocked block (kept_of blocks.now.starts) ms
        → out.new.items
        ≡ out.old.items ++ text_of (resumed (followed_by ms l) ms thread what.now)) }
{
    match what {
        What::Resumes(_, ended) => {
            let Some(start) = blocks.starts.get(thread.0) else {
                return Ok(());
            };
            put_block(out, start, world, number, *ended)?;
            Ok(())
        }
        What::Granted(_)
        | What::Took(_)
        | What::Waits(_)
        | What::GaveUp(_)
        | What::Released(_)
        | What::Priority(_)
        | What::Ceiling(_, _)
        | What::Blocks(_)
        | What::Runs(_)
        | What::On(_)
        | What::OffReady
        | What::OffAsleep => Ok(()),
    }
}
