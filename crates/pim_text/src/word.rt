//! The words of a line, and the numbers that they spell.
ghost use Rattle.std.specs.Prelude.{◌≡◌, ◌≢◌, ℕ, List, ◌∷◌, ◌==◌, ◌<◌, ◌≤◌, ◌+◌, ◌^◌, length, map};
ghost use Rattle.std.specs.Prelude.{IfSome, MatchOption, decimal, position};
ghost use Rattle.std.specs.Bool.{MatchBool};
ghost use Rattle.std.specs.Char.{digit_value};
ghost use Rattle.std.specs.Int.{IsInRange};
ghost use Rattle.std.specs.List.{slice_split};
ghost use Rattle.std.specs.Simd.Lanes.{mask_l, chunk};
ghost use Rattle.pim_base.specs.Spelling.{SPACE, IsNumber, IsPrio};
ghost use Rattle.pim_text.specs.Reading.{pieces, words, ReadsAs};

use pim_base::Prio;
use std::simd::prelude::*;

/// How many bytes are looked at together: those of a register that each x86-64 has.
const LANES: usize = 16;

/// Returns the bytes before the first separator and those behind it; all bytes and `None` where there is none.
#[inline]
pub(crate) fn cut(bytes: &[u8], separator: u8) -> (&[u8], Option<&[u8]>)
    ensures parts { slice_split (λ b. b == separator) bytes.now ≡ result.0.now ∷ pieces separator result.1 }
    ensures shorter { IfSome result.1 (λ rest. length rest.now < length bytes.now) }
{
    match place_of(bytes, separator) {
        Some(place) => (&bytes[..place], Some(&bytes[place + 1..])),
        None => (bytes, None),
    }
}

/// Returns the place of the first separator, or `None` where there is none.
///
/// The first look finds the end of most lines. Words are shorter, and mostly near the end of their line.
#[inline(always)]
fn place_of(bytes: &[u8], separator: u8) -> Option<usize>
    ensures { result ≡ position (λ b. b == separator) bytes.now }
{
    let mut place = 0;
    'looks: while LANES <= bytes.len() - place {
        let marks = marks_at(bytes, place, separator);
        if marks != 0 {
            return Some(place + marks.trailing_zeros() as usize);
        }
        place += LANES;
    }
    'steps: while place < bytes.len() {
        if bytes[place] == separator {
            return Some(place);
        }
        place += 1;
    }
    None
}

/// Returns a bit for each of the bytes from this place on, set where it is the separator.
#[inline(always)]
fn marks_at(bytes: &[u8], place: usize, separator: u8) -> u64
    requires { place + LANES ≤ length bytes.now }
    ensures { result ≡ mask_l (map (λ b. b == separator) (chunk place LANES bytes.now)) }
{
    u8x16::from_slice(&bytes[place..])
        .simd_eq(u8x16::splat(separator))
        .to_bitmask()
}

/// Returns whether the word is this one.
///
/// By `starts_with`: it is compared in place where the length of the name is known, and `==` calls a function.
#[inline(always)]
#[tactic(auto, using(crate::proofs::WordLemmas::same_word))]
pub(crate) fn is(word: &[u8], name: &str) -> bool
    ensures { MatchBool result (word.now ≡ name.now) (word.now ≢ name.now) }
{
    let name = name.as_bytes();
    word.len() == name.len() && word.starts_with(name)
}

/// Returns the priority, 1 to 99, that the word spells, or `None` where it spells none.
pub(crate) fn prio_of(word: &[u8]) -> Option<Prio>
    ensures { ReadsAs IsPrio decimal word.now result }
{
    Prio::new(number_of(word)?)
}

/// Returns the number, 1 to 65535, that the word spells, or `None` where it spells none.
pub(crate) fn number_of(word: &[u8]) -> Option<u16>
    ensures { ReadsAs IsNumber decimal word.now result }
{
    match cut_number(word)? {
        (number, None) => Some(number),
        (_, Some(_)) => None,
    }
}

/// Cuts off the first word, and returns the number, 1 to 65535, that it spells, and the bytes behind its separator;
/// or `None` where it spells none.
///
/// The number is read on the way to the separator, so that each of its digits is looked at one time.
pub(crate) fn cut_number(bytes: &[u8]) -> Option<(u16, Option<&[u8]>)>
    ensures { MatchOption result
        ((n : ℕ) (ws : List (List ℕ)) → IsNumber n → words bytes.now ≡ decimal n ∷ ws → ⊥)
        (λ read. IsNumber read.0 × (words bytes.now ≡ decimal read.0 ∷ pieces SPACE read.1)) }
{
    if bytes.is_empty() {
        return None;
    }
    if bytes[0] < b'1' {
        return None;
    }
    let mut value = 0;
    for place in 0..bytes.len() {
        if bytes[place] == b' ' {
            return Some((value as u16, Some(&bytes[place + 1..])));
        }
        let digit = digit_of(bytes[place])?;
        value = value * 10 + u32::from(digit);
        if value > 65_535 {
            return None;
        }
    }
    Some((value as u16, None))
}

/// Returns the digit that a character is, or `None` where it is none.
#[inline]
fn digit_of(byte: u8) -> Option<u8>
    ensures { MatchOption result
        (¬ (IsInRange 48 57 byte))
        (λ digit. IsInRange 48 57 byte × (digit ≡ digit_value byte)) }
{
    match byte {
        b'0'..=b'9' => Some(byte - b'0'),
        _ => None,
    }
}

/// Returns the count, 0 to 65535, that the word spells, or `None` where it spells none.
pub(crate) fn count_of(word: &[u8]) -> Option<u16>
    ensures { ReadsAs (λ n. n < 2 ^ 16) decimal word.now result }
{
    if is(word, "0") {
        Some(0)
    } else {
        number_of(word)
    }
}
