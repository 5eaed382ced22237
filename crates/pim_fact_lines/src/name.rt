//! The names and the places at the end of a line.
ghost use Rattle.std.specs.Prelude.{◌≡◌};
ghost use Rattle.pim_fact_lines.specs.Words.{is_name, is_reserved, is_place};
ghost use Rattle.pim_fact_lines.specs.Lines.{is_nothing, is_one_name, are_few};
ghost use Rattle.pim_fact_lines.specs.Reading.{words_after};

use crate::word::{cut, is};

/// How many bytes a name or a place has at most.
const MOST_BYTES: usize = 64;

/// How many places a fact has at most, and how many words an `unseen` line.
const MOST_WORDS: usize = 16;

/// Returns whether nothing is left of a line.
pub(crate) fn is_nothing(tail: Option<&[u8]>) -> bool
    ensures { result ≡ is_nothing (words_after tail.entry) }
{
    tail.is_none()
}

/// Returns whether a name is left of a line, and nothing else.
pub(crate) fn is_one_name(tail: Option<&[u8]>) -> bool
    ensures { result ≡ is_one_name (words_after tail.entry) }
{
    match tail {
        Some(bytes) => is_name(bytes),
        None => false,
    }
}

/// Returns whether at most 16 words are left of a line, and each is a place.
pub(crate) fn are_places(tail: Option<&[u8]>) -> bool
    ensures { result ≡ are_few is_place (words_after tail.entry) }
{
    let mut left = tail;
    for _count in 0..MOST_WORDS {
        let Some(bytes) = left else {
            return true;
        };
        let (word, rest) = cut(bytes);
        if !is_place(word) {
            return false;
        }
        left = rest;
    }
    left.is_none()
}

/// Returns whether at most 16 words are left of a line, and each is a name.
pub(crate) fn are_names(tail: Option<&[u8]>) -> bool
    ensures { result ≡ are_few is_name (words_after tail.entry) }
{
    let mut left = tail;
    for _count in 0..MOST_WORDS {
        let Some(bytes) = left else {
            return true;
        };
        let (word, rest) = cut(bytes);
        if !is_name(word) {
            return false;
        }
        left = rest;
    }
    left.is_none()
}

/// Returns whether a word is a place: a name that isn't reserved.
fn is_place(word: &[u8]) -> bool
    ensures { result ≡ is_place word.now }
{
    !is_reserved(word) && is_name(word)
}

/// Returns whether a fact could go on with a word in place of a place.
fn is_reserved(word: &[u8]) -> bool
    ensures { result ≡ is_reserved word.now }
{
    is(word, "by") || is(word, "failed") || is(word, "of") || is(word, "timed-out")
}

/// Returns whether bytes are a name: 1 to 64 letters, digits and signs of ASCII.
fn is_name(bytes: &[u8]) -> bool
    ensures { result ≡ is_name bytes.now }
{
    if bytes.is_empty() {
        return false;
    }
    if bytes.len() > MOST_BYTES {
        return false;
    }
    for place in 0..bytes.len() {
        if bytes[place] < b'!' {
            return false;
        }
        if bytes[place] > b'~' {
            return false;
        }
    }
    true
}
