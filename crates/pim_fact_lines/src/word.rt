//! The words of a line, and the numbers that they spell.
ghost use Rattle.std.specs.Prelude.{◌≡◌, ◌<◌, ◌≤◌, ◌==◌, ◌∷◌, IfSome, MatchOption, length};
ghost use Rattle.std.specs.Prelude.{position, slice_index};
ghost use Rattle.std.specs.Char.{digit_value};
ghost use Rattle.std.specs.Int.{IsInRange};
ghost use Rattle.pim_fact_lines.specs.Words.{words, is_word};
ghost use Rattle.pim_fact_lines.specs.Lines.{number_first, number_within, thread_first};
ghost use Rattle.pim_fact_lines.specs.Lines.{positive_first, level_first};
ghost use Rattle.pim_fact_lines.specs.Reading.{words_after, first_of};

use crate::line::{Level, MAX_NUMBER, MAX_THREAD, ThreadNo};

/// Returns the first word, and the bytes after the space that ends it; all bytes and `None` if
/// there is no space.
pub(crate) fn cut(bytes: &[u8]) -> (&[u8], Option<&[u8]>)
    ensures { words bytes.now ≡ result.0.now ∷ words_after result.1 }
{
    match place_of(bytes, b' ') {
        Some(place) => (&bytes[..place], Some(&bytes[place + 1..])),
        None => (bytes, None),
    }
}

/// Returns the place of the first separator, or `None` if there is none.
pub(crate) fn place_of(bytes: &[u8], separator: u8) -> Option<usize>
    ensures { result ≡ position (λ b. b == separator) bytes.now }
{
    for place in 0..bytes.len() {
        if bytes[place] == separator {
            return Some(place);
        }
    }
    None
}

/// Returns whether the word is this one.
#[inline(always)]
#[tactic(auto, using(crate::proofs::Comparing::same_word, crate::proofs::Comparing::longer_other))]
pub(crate) fn is(word: &[u8], name: &str) -> bool
    ensures { result ≡ is_word word.now name.now }
{
    let name = name.as_bytes();
    word.len() == name.len() && word.starts_with(name)
}

/// Cuts off the first word of what is left of a line. Returns the number of a thread that it
/// spells, and the bytes after it; or `None` if it spells none.
pub(crate) fn cut_thread(tail: Option<&[u8]>) -> Option<(ThreadNo, Option<&[u8]>)>
    ensures { first_of result ≡ thread_first (words_after tail.entry) }
{
    let (number, rest) = cut_within(tail, 1, MAX_THREAD)?;
    Some((ThreadNo(number as u32), rest))
}

/// Returns in the same way a number from 1 on, of a mutex, an object, or of events.
pub(crate) fn cut_positive(tail: Option<&[u8]>) -> Option<(u64, Option<&[u8]>)>
    ensures { first_of result ≡ positive_first (words_after tail.entry) }
{
    cut_within(tail, 1, MAX_NUMBER)
}

/// Returns in the same way a level.
pub(crate) fn cut_level(tail: Option<&[u8]>) -> Option<(Level, Option<&[u8]>)>
    ensures { first_of result ≡ level_first (words_after tail.entry) }
{
    let (number, rest) = cut_number(tail)?;
    let level = Level::new(number)?;
    Some((level, rest))
}

/// Returns in the same way a number within a range.
pub(crate) fn cut_within(tail: Option<&[u8]>, least: u64, most: u64) -> Option<(u64, Option<&[u8]>)>
    ensures range { IfSome result (λ cut. cut.0 ≤ most) }
    ensures says { first_of result ≡ number_within least most (words_after tail.entry) }
{
    let (number, rest) = cut_number(tail)?;
    if number < least {
        return None;
    }
    if number > most {
        return None;
    }
    Some((number, rest))
}

/// Returns in the same way a number below 10^19.
pub(crate) fn cut_number(tail: Option<&[u8]>) -> Option<(u64, Option<&[u8]>)>
    ensures { first_of result ≡ number_first (words_after tail.entry) }
{
    let bytes = tail?;
    if bytes.is_empty() {
        return None;
    }
    if bytes[0] == b'0' {
        return cut_zero(bytes);
    }
    if bytes[0] < b'1' {
        return None;
    }
    cut_digits(bytes)
}

/// Returns in the same way a number that begins with 0, which is 0.
fn cut_zero(bytes: &[u8]) -> Option<(u64, Option<&[u8]>)>
    requires some { 0 < length bytes.now }
    requires zero { slice_index bytes.now 0 ≡ 48 }
    ensures { first_of result ≡ number_first (words bytes.now) }
{
    let (word, rest) = cut(bytes);
    if !is(word, "0") {
        return None;
    }
    Some((0, rest))
}

/// Returns in the same way a number that begins with another digit. Each byte is looked at once.
fn cut_digits(bytes: &[u8]) -> Option<(u64, Option<&[u8]>)>
    requires some { 0 < length bytes.now }
    requires first { 49 ≤ slice_index bytes.now 0 }
    ensures { first_of result ≡ number_first (words bytes.now) }
{
    let mut value = 0u64;
    for place in 0..bytes.len() {
        if bytes[place] == b' ' {
            return Some((value, Some(&bytes[place + 1..])));
        }
        let digit = digit_of(bytes[place])?;
        if value > 999_999_999_999_999_999 {
            return None;
        }
        value = value * 10 + u64::from(digit);
    }
    Some((value, None))
}

/// Returns the digit that a character is, or `None` where it is none.
fn digit_of(byte: u8) -> Option<u8>
    ensures { MatchOption result
        (¬ (IsInRange 48 57 byte))
        (λ digit. IsInRange 48 57 byte × (digit < 10) × (digit ≡ digit_value byte)) }
{
    match byte {
        b'0'..=b'9' => Some(byte - b'0'),
        _ => None,
    }
}
