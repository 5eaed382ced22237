//! Words and numbers, written into a buffer.
//!
//! Each call writes a text at a place, and returns the place after it. The place stays in a register, and a word is
//! written by a move or two. A `Vec` checks its capacity and updates its length for each word.
ghost use Rattle.std.specs.Prelude.{◌≡◌, ◌≤◌, ◌<◌, ◌+◌, ◌/◌, ◌%◌, ◌++◌, ◌∷◌, [], length, take, decimal};

use crate::numerals::{KEPT, Numerals, digit};

/// Writes a word whose length the compiler knows.
#[inline(always)]
pub(crate) fn put<const N: usize>(row: &mut [u8], at: usize, word: &[u8; N]) -> usize
    requires { at + N ≤ length row.old }
    ensures end { result ≡ at + N }
    ensures text { take result row.new ≡ take at row.old ++ word.now }
{
    row[at..at + N].copy_from_slice(word);
    at + N
}

/// Writes a text of any length.
pub(crate) fn put_slice(row: &mut [u8], at: usize, text: &[u8]) -> usize
    requires { at + length text.now ≤ length row.old }
    ensures end { result ≡ at + length text.now }
    ensures text { take result row.new ≡ take at row.old ++ text.now }
{
    let end = at + text.len();
    row[at..end].copy_from_slice(text);
    end
}

/// Writes a number in decimal digits.
#[inline(always)]
pub(crate) fn put_number(numerals: &Numerals, row: &mut [u8], at: usize, number: u32) -> usize
    requires { at + 10 ≤ length row.old }
    ensures end { result ≤ at + 10 }
    ensures text { take result row.new ≡ take at row.old ++ decimal number }
{
    if number < KEPT {
        put_kept(numerals, row, at, number)
    } else {
        put_long_number(numerals, row, at, number)
    }
}

/// Writes all four bytes of a number in the table. The next text overwrites the bytes that aren't digits.
#[inline(always)]
fn put_kept(numerals: &Numerals, row: &mut [u8], at: usize, number: u32) -> usize
    requires room { at + 4 ≤ length row.old }
    requires kept { number < 1000 }
    ensures end { result ≤ at + 3 }
    ensures text { take result row.new ≡ take at row.old ++ decimal number }
{
    let text = numerals.of(number);
    put(row, at, &text);
    at + usize::from(text[3])
}

/// Writes a number of at least four digits: its thousands, and then three digits.
#[inline(never)]
fn put_long_number(numerals: &Numerals, row: &mut [u8], at: usize, number: u32) -> usize
    requires room { at + 10 ≤ length row.old }
    requires long { 1000 ≤ number }
    ensures end { result ≤ at + 10 }
    ensures text { take result row.new ≡ take at row.old ++ decimal number }
{
    let thousands = number / 1000;
    if thousands < KEPT {
        let end = put_kept(numerals, row, at, thousands);
        put(row, end, &three_digits(number % 1000))
    } else {
        let mut digits = itoa::Buffer::new();
        put_slice(row, at, digits.format(number).as_bytes())
    }
}

/// Returns the three digits of a number below a thousand, with leading zeros.
#[inline]
fn three_digits(number: u32) -> [u8; 3]
    requires { number < 1000 }
    ensures { result ≡ (48 + number / 100) ∷ (48 + number / 10 % 10) ∷ (48 + number % 10) ∷ [] }
{
    [
        digit(number / 100),
        digit(number / 10 % 10),
        digit(number % 10),
    ]
}
