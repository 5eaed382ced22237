//! The sections of threads at mutexes.

ghost use Rattle.std.specs.Prelude.{◌≡◌, ◌++◌, map, Some, None, IfOk};
ghost use Rattle.pim_rows.specs.Found.{with_section};
ghost use Rattle.pim_rows.specs.Rows.{section_row, text_of};
ghost use Rattle.pim_rows.specs.Tables.{change};

use crate::row::Word;
use crate::row_table::RowTable;
use crate::rows_text::put_row;
use pim_world::Key;
use std::alloc::AllocError;
use std::marker::Model;

/// An ownership of a mutex by a thread.
#[derive(Clone, Copy)]
pub struct Section {
    /// The line by which it began.
    pub line: u64,
    /// How long it took, in nanoseconds.
    pub lasted: u64,
    /// For how long of that the owner wasn't off a CPU.
    pub used: u64,
}

impl Model for Section {
    ghost use Rattle.pim_rows.specs.Found as spec;

    ghost Value = { spec.Section };

    ghost view = { λ s. record { line = s.line; lasted = s.lasted; used = s.used } };

    ghost inverse = { λ s. record { line = s.line; lasted = s.lasted; used = s.used } };
}

/// The sections of a thread at a mutex at one level.
#[derive(Clone, Copy)]
pub struct Sections {
    /// How many.
    pub count: u64,
    /// How long the longest of them took, in nanoseconds.
    pub longest: u64,
    /// The line by which the first one of that length began.
    pub line: u64,
    /// The most time for which the owner of one wasn't off a CPU.
    pub used: u64,
}

impl Model for Sections {
    ghost use Rattle.pim_rows.specs.Found as spec;

    ghost Value = { spec.Sections };

    ghost view = { λ s.
        record { count = s.count; longest = s.longest; line = s.line; used = s.used } };

    ghost inverse = { λ s.
        record { count = s.count; longest = s.longest; line = s.line; used = s.used } };
}

impl Sections {
    fn one(section: Section) -> Sections
        ensures { result ≡ with_section section None }
    {
        Sections {
            count: 1,
            longest: section.lasted,
            line: section.line,
            used: section.used,
        }
    }

    /// Returns these sections with one more.
    ///
    /// # Errors
    ///
    /// Returns `AllocError` if there are 2^64 - 1.
    fn with(self, section: Section) -> Result<Sections, AllocError>
        ensures { IfOk result (λ all. all ≡ with_section section (Some self)) }
    {
        let Some(count) = self.count.checked_add(1) else {
            return Err(AllocError);
        };
        let is_longer = self.longest < section.lasted;
        Ok(Sections {
            count,
            longest: self.longest.max(section.lasted),
            line: if is_longer { section.line } else { self.line },
            used: self.used.max(section.used),
        })
    }

    /// Returns the numbers of their row.
    fn numbers(self, key: Key) -> [u64; 7]
        ensures { result ≡ (section_row (key, self)).numbers }
    {
        [
            key.0,
            key.1,
            key.2,
            self.count,
            self.longest,
            self.line,
            self.used,
        ]
    }
}

/// Adds a section of a thread at a mutex at a level, which are the numbers of the key.
///
/// # Errors
///
/// Returns `AllocError` if out of memory, or if the key has 2^64 - 1 sections.
pub fn add_section(
    table: &mut RowTable<Sections>,
    key: Key,
    section: Section,
) -> Result<(), AllocError>
    ensures { IfOk result (λ _. table.new ≡ change key (with_section section) table.old) }
{
    let had = table.get(key);
    let all = with(had, section)?;
    table.set(key, all)?;
    Ok(())
}

/// Returns the sections with one more.
///
/// # Errors
///
/// Returns `AllocError` if there are 2^64 - 1.
fn with(had: Option<Sections>, section: Section) -> Result<Sections, AllocError>
    ensures { IfOk result (λ all. all ≡ with_section section had) }
{
    match had {
        Some(had) => had.with(section),
        None => Ok(Sections::one(section)),
    }
}

/// Appends the rows of a table.
///
/// # Errors
///
/// Returns `AllocError` if out of memory.
pub fn put_sections(out: &mut Vec<u8>, table: &RowTable<Sections>) -> Result<(), AllocError>
    ensures { IfOk result
        (λ _. out.new.items ≡ out.old.items ++ text_of (map section_row table.now)) }
{
    for (key, sections) in &table.rows {
        put_row(out, Word::Section, &sections.numbers(*key))?;
    }
    Ok(())
}
