//! The requests of threads for a mutex while they owned another.

ghost use Rattle.std.specs.Prelude.{◌≡◌, ◌++◌, map, IfOk};
ghost use Rattle.pim_rows.specs.Found.{with_nest};
ghost use Rattle.pim_rows.specs.Rows.{nests_row, text_of};
ghost use Rattle.pim_rows.specs.Tables.{change};

use crate::row::Word;
use crate::row_table::RowTable;
use crate::rows_text::put_row;
use pim_world::Key;
use std::alloc::AllocError;
use std::marker::Model;

/// The requests of a thread for one mutex while it owned another.
#[derive(Clone, Copy)]
pub struct Nests {
    /// How many.
    pub count: u64,
    /// The line by which it came to own the other mutex, at the first of them.
    pub taken: u64,
    /// The line of the first of them.
    pub line: u64,
}

impl Model for Nests {
    ghost use Rattle.pim_rows.specs.Found as spec;

    ghost Value = { spec.Nests };

    ghost view = { λ n. record { count = n.count; taken = n.taken; line = n.line } };

    ghost inverse = { λ n. record { count = n.count; taken = n.taken; line = n.line } };
}

impl Nests {
    /// Returns the numbers of their row.
    fn numbers(self, key: Key) -> [u64; 6]
        ensures { result ≡ (nests_row (key, self)).numbers }
    {
        [key.0, key.1, key.2, self.count, self.taken, self.line]
    }
}

/// Adds a request of a thread, which owned a mutex, for another one: the numbers of the key. It came
/// to own the first mutex by the line `taken`, and `line` is that of the request.
///
/// # Errors
///
/// Returns `AllocError` if out of memory, or if the key has 2^64 - 1 requests.
pub fn add_nest(
    table: &mut RowTable<Nests>,
    key: Key,
    taken: u64,
    line: u64,
) -> Result<(), AllocError>
    ensures { IfOk result (λ _. table.new ≡ change key (with_nest taken line) table.old) }
{
    let had = table.get(key);
    let all = with(had, taken, line)?;
    table.set(key, all)?;
    Ok(())
}

/// Returns the requests with one more.
///
/// # Errors
///
/// Returns `AllocError` if there are 2^64 - 1.
fn with(had: Option<Nests>, taken: u64, line: u64) -> Result<Nests, AllocError>
    ensures { IfOk result (λ all. all ≡ with_nest taken line had) }
{
    let Some(had) = had else {
        return Ok(Nests {
            count: 1,
            taken,
            line,
        });
    };
    match had.count.checked_add(1) {
        Some(count) => Ok(Nests {
            count,
            taken: had.taken,
            line: had.line,
        }),
        None => Err(AllocError),
    }
}

/// Appends the rows of a table.
///
/// # Errors
///
/// Returns `AllocError` if out of memory.
pub fn put_nests(out: &mut Vec<u8>, table: &RowTable<Nests>) -> Result<(), AllocError>
    ensures { IfOk result
        (λ _. out.new.items ≡ out.old.items ++ text_of (map nests_row table.now)) }
{
    for (key, nests) in &table.rows {
        put_row(out, Word::Nests, &nests.numbers(*key))?;
    }
    Ok(())
}
