//! The rows of a wait for a mutex.

ghost use Rattle.std.specs.Prelude.{◌≡◌, ◌∷◌, ◌++◌, [], ℕ, List, map, IfOk};
ghost use Rattle.pim_rows.specs.Moments.{Moment, clock as clock_of};
ghost use Rattle.pim_rows.specs.Rows.{wait_row, wait_rows, inverted_row, text_of};
ghost use Rattle.pim_world.specs.Standing.{Key as SpecKey};
ghost use Rattle.pim_rows.specs.Rows.{row};

use crate::row::Word;
use crate::rows_text::put_row;
use crate::tally::Tally;
use crate::wait_start::WaitStart;
use pim_world::Key;
use std::alloc::AllocError;

/// Appends the rows of a wait that began so and has these times. Takes the clock, and the number of
/// the line that ended the wait, or 0 if it lasts.
///
/// # Errors
///
/// Returns `AllocError` if out of memory.
pub(crate) fn put_wait(
    out: &mut Vec<u8>,
    start: WaitStart,
    times: &Tally,
    clock: u64,
    until: u64,
) -> Result<(), AllocError>
    ensures { IfOk result (λ _. (ms : List Moment) → clock_of ms ≡ clock
        → out.new.items ≡ out.old.items ++ text_of (wait_rows start ms until times.now)) }
{
    put_row(out, Word::Wait, &wait_numbers(start, times, clock, until))?;
    put_inverted(out, start.line, times.inverted.rows())?;
    put_pairs(out, Word::Stalled, start.line, times.stalled.rows())?;
    put_pairs(out, Word::Meanwhile, start.line, times.meanwhile.rows())
}

/// Returns the numbers of the row of a wait.
fn wait_numbers(start: WaitStart, times: &Tally, clock: u64, until: u64) -> [u64; 14]
    ensures { (ms : List Moment)
        → clock_of ms ≡ clock → result ≡ (wait_row start ms until times.now).numbers }
{
    [
        start.line,
        until,
        start.thread,
        start.mutex,
        start.from,
        clock.saturating_sub(start.from),
        start.level,
        start.gets,
        start.owner,
        start.owner_level,
        start.grant,
        times.inverted.total(),
        times.lower,
        times.stalled.total(),
    ]
}

/// Appends a row for each mutex and runner by which the wait that began with this line was
/// inverted.
fn put_inverted(out: &mut Vec<u8>, line: u64, rows: &[(Key, u64)]) -> Result<(), AllocError>
    ensures { IfOk result
        (λ _. out.new.items ≡ out.old.items ++ text_of (map (inverted_row line) rows.now)) }
{
    for (key, time) in rows {
        put_row(out, Word::Inverted, &[line, key.0, key.1, key.2, *time])?;
    }
    Ok(())
}

/// Appends a row with this word for each two numbers by which times of the wait that began with
/// this line were summed.
fn put_pairs(
    out: &mut Vec<u8>,
    word: Word,
    line: u64,
    rows: &[(Key, u64)],
) -> Result<(), AllocError>
    ensures { IfOk result (λ _. out.new.items ≡ out.old.items ++ text_of (map (λ (x : SpecKey × ℕ).
        row word (line ∷ x.0.0 ∷ x.0.1 ∷ x.1 ∷ [])) rows.now)) }
{
    for (key, time) in rows {
        put_row(out, word, &[line, key.0, key.1, *time])?;
    }
    Ok(())
}
