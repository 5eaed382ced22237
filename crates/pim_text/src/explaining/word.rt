//! The words of a line, by their places.
ghost use Rattle.std.specs.Prelude.{◌≡◌, None, Some, slice_get, MatchOption};
ghost use Rattle.std.specs.Bool.{MatchBool};
ghost use Rattle.pim_base.specs.Spelling.{IsPrio};
ghost use Rattle.pim_text.specs.Reading.{words};
ghost use Rattle.pim_text.specs.Words.{IsWord, Misspells, IsNumberAt};

use crate::word::{cut, number_of, prio_of};

/// What is at a place where a number is wanted.
#[derive(Clone, Copy)]
pub(crate) enum NumberAt {
    /// The line has no such word.
    Missing,
    /// The word isn't a number from 1 to 65535.
    Wrong,
    /// The word is this number.
    Value(u16),
}

/// Returns whether the word at this place, counted from 0, is this one.
pub(crate) fn has_word(line: &[u8], place: usize, name: &str) -> bool
    ensures { MatchBool result (IsWord line.now place name.now) (IsWord line.now place name.now → ⊥) }
{
    match word_at(line, place) {
        Some(word) => word == name.as_bytes(),
        None => false,
    }
}

/// Returns what is at this place, where a number is wanted.
pub(crate) fn number_at(line: &[u8], place: usize) -> NumberAt
    ensures { IsNumberAt line.now place result }
{
    let Some(word) = word_at(line, place) else {
        return NumberAt::Missing;
    };
    match number_of(word) {
        Some(number) => NumberAt::Value(number),
        None => NumberAt::Wrong,
    }
}

/// Returns whether there is a word at this place that isn't a priority.
pub(crate) fn misspells_prio(line: &[u8], place: usize) -> bool
    ensures { MatchBool result (Misspells IsPrio line.now place) (Unit {0}) }
{
    let Some(word) = word_at(line, place) else {
        return false;
    };
    prio_of(word).is_none()
}

/// Returns the word at this place, counted from 0, or `None` if the line has fewer words.
pub(crate) fn word_at(line: &[u8], place: usize) -> Option<&[u8]>
    ensures { MatchOption result
        (slice_get (words line.now) place ≡ None)
        (λ word. slice_get (words line.now) place ≡ Some word.now) }
{
    let mut rest = line;
    for _passed in 0..place {
        let (_word, after) = cut(rest, b' ');
        rest = after?;
    }
    let (word, _after) = cut(rest, b' ');
    Some(word)
}
