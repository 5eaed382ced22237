//! The sections that lines end, and those that last.

ghost use Rattle.std.specs.Prelude.{◌≡◌, ◌+◌, ℕ, List, Some, IfOk};
ghost use Rattle.pim_fact_lines.specs.declared.line.Line.{Line};
ghost use Rattle.pim_world.specs.After.{after};
ghost use Rattle.pim_world.specs.Held.{world_of};
ghost use Rattle.pim_rows.specs.Moments.{Moment, now, followed_by};
ghost use Rattle.pim_rows.specs.Begun.{is_owned};
ghost use Rattle.pim_rows.specs.Begun.{grant};
ghost use Rattle.pim_rows.specs.Found.{mutex_of, section, put_section, sections, all_sections};
ghost use Rattle.pim_rows.specs.Found.{lasting_section};
ghost use Rattle.pim_rows.specs.Kept.{kept_of};
ghost use Rattle.pim_rows.specs.OffTimes.{AreOffTimes};
ghost use Rattle.pim_rows.specs.Kept.{AreStarts};

use crate::grant::Grant;
use crate::grants::Grants;
use crate::off_times::OffTimes;
use crate::row_table::RowTable;
use crate::section_table::{Section, Sections, add_section};
use pim_waits::{MutexPlace, ThreadPlace};
use pim_world::World;
use std::alloc::AllocError;

/// Puts the section that a line ends, if it ends one. Takes the world after it, the mutex that it
/// locked or released, whether that was owned before, the ownerships before the line, and for how
/// long threads have been off a CPU.
///
/// # Errors
///
/// Returns `AllocError` if out of memory.
pub(crate) fn end_section(
    table: &mut RowTable<Sections>,
    world: &World,
    mutex: Option<MutexPlace>,
    was: bool,
    grants: &Grants,
    off_times: &OffTimes,
) -> Result<(), AllocError>
    ensures { IfOk result
        (λ _. (ms : List Moment) (l : Line) → world_of world.now ≡ after (now ms) l
        → mutex ≡ mutex_of (now ms) l → ((m : ℕ) → mutex ≡ Some m → was ≡ is_owned m (now ms))
        → AreStarts is_owned grant (kept_of grants.now.starts) ms
        → AreOffTimes (kept_of off_times.now.starts) (followed_by ms l)
        → table.old ≡ sections ms → table.new ≡ sections (followed_by ms l)) }
{
    let Some(mutex) = mutex else {
        return Ok(());
    };
    if !was {
        return Ok(());
    }
    if world.waits().owner(mutex).is_some() {
        return Ok(());
    }
    put_section(table, world, mutex, grants, off_times)?;
    Ok(())
}

/// Puts the sections that last, at the end. Takes the world then, the ownerships, and for how long
/// threads have been off a CPU.
///
/// # Errors
///
/// Returns `AllocError` if out of memory.
pub(crate) fn put_lasting_sections(
    table: &mut RowTable<Sections>,
    world: &World,
    grants: &Grants,
    off_times: &OffTimes,
) -> Result<(), AllocError>
    ensures { IfOk result (λ _. (ms : List Moment) → world_of world.now ≡ now ms
        → AreStarts is_owned grant (kept_of grants.now.starts) ms
        → AreOffTimes (kept_of off_times.now.starts) ms
        → table.old ≡ sections ms → table.new ≡ all_sections ms) }
{
    for i in 0..world.waits().mutexes() {
        put_lasting_section(table, world, MutexPlace(i + 1), grants, off_times)?;
    }
    Ok(())
}

/// Puts the section at a mutex, if it is owned.
fn put_lasting_section(
    table: &mut RowTable<Sections>,
    world: &World,
    mutex: MutexPlace,
    grants: &Grants,
    off_times: &OffTimes,
) -> Result<(), AllocError>
    ensures { IfOk result (λ _. (ms : List Moment) → world_of world.now ≡ now ms
        → AreStarts is_owned grant (kept_of grants.now.starts) ms
        → AreOffTimes (kept_of off_times.now.starts) ms
        → table.new ≡ lasting_section ms table.old mutex) }
{
    if world.waits().owner(mutex).is_none() {
        return Ok(());
    }
    put_section(table, world, mutex, grants, off_times)?;
    Ok(())
}

/// Puts the section at a mutex, which lasts or ended with the newest line. Takes the world after
/// that.
fn put_section(
    table: &mut RowTable<Sections>,
    world: &World,
    mutex: MutexPlace,
    grants: &Grants,
    off_times: &OffTimes,
) -> Result<(), AllocError>
    ensures { IfOk result (λ _. (start ms : List Moment) → world_of world.now ≡ now ms
        → kept_of grants.now.starts mutex ≡ Some (grant mutex start)
        → AreOffTimes (kept_of off_times.now.starts) ms
        → table.new ≡ put_section mutex start ms table.old) }
{
    let Some(grant) = grants.starts.get(mutex.0) else {
        return Ok(());
    };
    let section = section_of(grant, world, off_times);
    let key = (grant.thread, world.mutex_number(mutex), grant.level);
    add_section(table, key, section)?;
    Ok(())
}

/// Returns the section that began so, and lasts or ended with the newest line. Takes the world
/// after that.
fn section_of(grant: Grant, world: &World, off_times: &OffTimes) -> Section
    ensures { (ms : List Moment)
        → world_of world.now ≡ now ms → AreOffTimes (kept_of off_times.now.starts) ms
        → result ≡ section grant ms }
{
    let lasted = world.clock().saturating_sub(grant.from);
    let off = off_times
        .so_far(world, ThreadPlace(grant.owner))
        .saturating_sub(grant.off);
    Section {
        line: grant.line,
        lasted,
        used: lasted.saturating_sub(off),
    }
}
