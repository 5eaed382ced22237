//! The rows of what lasts to the end.

ghost use Rattle.std.specs.Prelude.{◌≡◌, ◌≤◌, ◌++◌, ℕ, List, Some, flat_map, nat_lt, cond, IfOk};
ghost use Rattle.pim_base.specs.Lists.{nth};
ghost use Rattle.pim_world.specs.Held.{world_of};
ghost use Rattle.pim_rows.specs.Moments.{Moment, now};
ghost use Rattle.pim_world.specs.Standing.{waits};
ghost use Rattle.pim_rows.specs.Begun.{is_blocked};
ghost use Rattle.pim_rows.specs.Begun.{wait_start, block};
ghost use Rattle.pim_rows.specs.Kept.{kept_of};
ghost use Rattle.pim_rows.specs.Kept.{AreStarts};
ghost use Rattle.pim_rows.specs.OpenWaits.{Follows};
ghost use Rattle.pim_rows.specs.Tables.{total};
ghost use Rattle.pim_rows.specs.AllOpen.{AreOpen, AreUntil};
ghost use Rattle.pim_rows.specs.declared.open_wait.OpenWait.{OpenWait as SpecOpenWait};
ghost use Rattle.pim_rows.specs.Rows.{lasting_wait, lasting_block, text_of};
ghost use Rattle.pim_rows.specs.Ending.{Puts};

use crate::block_rows::put_block;
use crate::blocks::Blocks;
use crate::open_waits::OpenWaits;
use crate::tally::Tally;
use crate::wait_rows::put_wait;
use crate::wait_starts::WaitStarts;
use pim_fact_lines::Ended;
use pim_waits::ThreadPlace;
use pim_world::World;
use std::alloc::AllocError;

/// Appends the rows of the waits for mutexes that last, of these threads. Takes how they began, and
/// what is kept of them, which is of no use afterwards. Returns how many waits there are, and how
/// many of them were inverted.
///
/// # Errors
///
/// Returns `AllocError` if out of memory, or if a thread that waits is listed twice.
pub(crate) fn put_lasting_waits(
    out: &mut Vec<u8>,
    world: &World,
    starts: &WaitStarts,
    opens: &mut OpenWaits,
    places: &[ThreadPlace],
) -> Result<(u64, u64), AllocError>
    requires { AreUntil (world_of world.now).clock opens.old.opens.items }
    ensures { IfOk result (λ counts. (ms : List Moment) → world_of world.now ≡ now ms
        → AreStarts waits wait_start (kept_of starts.now.starts) ms
        → AreOpen opens.old.opens.items ms
        → Puts
        (flat_map (lasting_wait ms) places.now) out.old.items out.new.items counts.0 counts.1) }
{
    let mut waits = 0;
    let mut inverted = 0;
    for place in places {
        let counts = put_lasting_wait(out, world, starts, opens, *place)?;
        waits += counts.0;
        inverted += counts.1;
    }
    Ok((waits, inverted))
}

/// Appends the rows of the wait of a thread, if it waits. Returns how many waits that are, and how
/// many of them were inverted.
fn put_lasting_wait(
    out: &mut Vec<u8>,
    world: &World,
    starts: &WaitStarts,
    opens: &mut OpenWaits,
    thread: ThreadPlace,
) -> Result<(u64, u64), AllocError>
    requires { AreUntil (world_of world.now).clock opens.old.opens.items }
    ensures rows { IfOk result (λ counts. (ms : List Moment) → world_of world.now ≡ now ms
        → AreStarts waits wait_start (kept_of starts.now.starts) ms
        → ((t : ℕ) (w : SpecOpenWait)
        → nth opens.old.opens.items t ≡ Some (Some w) → Follows w t ms)
        → Puts (lasting_wait ms thread) out.old.items out.new.items counts.0 counts.1) }
    ensures most { IfOk result (λ counts. (counts.0 ≤ 1) × (counts.1 ≤ 1)) }
    ensures left { (t : ℕ) (w : SpecOpenWait) → nth opens.new.opens.items t ≡ Some (Some w)
        → nth opens.old.opens.items t ≡ Some (Some w) }
{
    if world.waits().awaited(thread).is_none() {
        return Ok((0, 0));
    }
    let Some(start) = starts.starts.get(thread.0) else {
        return Ok((0, 0));
    };
    let Some(open) = opens.take(thread.0) else {
        return Err(AllocError);
    };
    let times = open.close(world.clock())?;
    put_wait(out, start, &times, world.clock(), 0)?;
    Ok((1, one_if_inverted(&times)))
}

/// Returns 1 if a wait with these times was inverted, or else 0.
pub(crate) fn one_if_inverted(times: &Tally) -> u64
    ensures { result ≡ cond (nat_lt 0 (total times.now.inverted)) 1 0 }
{
    if times.inverted.total() > 0 {
        return 1;
    }
    0
}

/// Appends the rows of the waits at objects that last, of these threads. Takes how they began.
///
/// # Errors
///
/// Returns `AllocError` if out of memory.
pub(crate) fn put_lasting_blocks(
    out: &mut Vec<u8>,
    world: &World,
    blocks: &Blocks,
    places: &[ThreadPlace],
) -> Result<(), AllocError>
    ensures { IfOk result (λ _. (ms : List Moment) → world_of world.now ≡ now ms
        → AreStarts is_blocked block (kept_of blocks.now.starts) ms
        → out.new.items ≡ out.old.items ++ text_of (flat_map (lasting_block ms) places.now)) }
{
    for place in places {
        put_lasting_block(out, world, blocks, *place)?;
    }
    Ok(())
}

/// Appends the row of the wait of a thread at an object, if it is blocked at one.
fn put_lasting_block(
    out: &mut Vec<u8>,
    world: &World,
    blocks: &Blocks,
    thread: ThreadPlace,
) -> Result<(), AllocError>
    ensures { IfOk result (λ _. (ms : List Moment) → world_of world.now ≡ now ms
        → AreStarts is_blocked block (kept_of blocks.now.starts) ms
        → out.new.items ≡ out.old.items ++ text_of (lasting_block ms thread)) }
{
    if world.blocked(thread).is_none() {
        return Ok(());
    }
    let Some(start) = blocks.starts.get(thread.0) else {
        return Ok(());
    };
    put_block(out, start, world, 0, Ended::Unknown)?;
    Ok(())
}
