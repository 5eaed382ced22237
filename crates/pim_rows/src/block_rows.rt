//! The row of a wait at an object.

ghost use Rattle.std.specs.Prelude.{◌≡◌, ◌∷◌, ◌++◌, [], ℕ, List, IfOk};
ghost use Rattle.std.specs.Option.{option_map_or};
ghost use Rattle.pim_base.specs.State.{base_of};
ghost use Rattle.pim_world.specs.Held.{world_of};
ghost use Rattle.pim_rows.specs.Moments.{Moment, now};
ghost use Rattle.pim_rows.specs.Rows.{blocked_row, ended_numbers, text_of};

use crate::block::Block;
use crate::row::Word;
use crate::rows_text::put_row;
use pim_fact_lines::{Ended, ThreadNo};
use pim_world::World;
use std::alloc::AllocError;

/// Appends the row of a wait that began so and ended so. Takes the world after the newest line, and
/// the number of the line that ended the wait, or 0 if it lasts.
///
/// # Errors
///
/// Returns `AllocError` if out of memory.
pub(crate) fn put_block(
    out: &mut Vec<u8>,
    start: Block,
    world: &World,
    until: u64,
    ended: Ended,
) -> Result<(), AllocError>
    ensures { IfOk result (λ _. (ms : List Moment) → now ms ≡ world_of world.now
        → out.new.items ≡ out.old.items ++ text_of (blocked_row start ms until ended ∷ [])) }
{
    put_row(
        out,
        Word::Blocked,
        &block_numbers(start, world, until, &ended),
    )
}

/// Returns the numbers of the row of a wait.
fn block_numbers(start: Block, world: &World, until: u64, ended: &Ended) -> [u64; 10]
    ensures { (ms : List Moment)
        → now ms ≡ world_of world.now → result ≡ (blocked_row start ms until ended.now).numbers }
{
    let [how, thread, level] = end_numbers(world, ended);
    [
        start.line,
        until,
        start.thread,
        start.object,
        start.from,
        world.clock().saturating_sub(start.from),
        start.level,
        how,
        thread,
        level,
    ]
}

/// Returns how a wait ended, which thread ended it, and the level of that.
fn end_numbers(world: &World, ended: &Ended) -> [u64; 3]
    ensures { result ≡ ended_numbers (world_of world.now) ended.now }
{
    match ended {
        Ended::Unknown => [0, 0, 0],
        Ended::By(thread) => [1, u64::from(thread.0), level_of(world, *thread)],
        Ended::TimedOut => [2, 0, 0],
        Ended::Failed => [3, 0, 0],
    }
}

/// Returns the level of the thread with a number, or 0 if there is none.
fn level_of(world: &World, number: ThreadNo) -> u64
    ensures { result ≡ option_map_or
        (λ p. base_of (world_of world.now).state p) ((world_of world.now).thread number) 0 }
{
    match world.thread(number) {
        Some(thread) => world.level(thread),
        None => 0,
    }
}
