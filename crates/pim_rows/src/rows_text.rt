//! Rows in a buffer.

ghost use Rattle.std.specs.Prelude.{◌≡◌, ◌++◌, ◌∷◌, decimal, IfOk};
ghost use Rattle.pim_rows.specs.Rows.{row, row_text};

use crate::row::Word;
use std::alloc::AllocError;

/// Appends a row: a word and numbers.
///
/// # Errors
///
/// Returns `AllocError` if out of memory.
pub fn put_row(out: &mut Vec<u8>, word: Word, numbers: &[u64]) -> Result<(), AllocError>
    ensures { IfOk result (λ _. out.new.items ≡ out.old.items ++ row_text (row word numbers.now)) }
{
    out.extend_from_slice(word.text().as_bytes())?;
    for number in numbers {
        put_number(out, *number)?;
    }
    out.extend_from_slice(b"\n")
}

/// Appends a space and a number in decimal digits.
///
/// # Errors
///
/// Returns `AllocError` if out of memory.
pub fn put_number(out: &mut Vec<u8>, number: u64) -> Result<(), AllocError>
    ensures { IfOk result (λ _. out.new.items ≡ out.old.items ++ 32 ∷ decimal number) }
{
    let mut digits = itoa::Buffer::new();
    out.extend_from_slice(b" ")?;
    out.extend_from_slice(digits.format(number).as_bytes())
}
