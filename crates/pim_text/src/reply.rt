//! The reply that was recorded for a step.
ghost use Rattle.std.specs.Prelude.{◌≡◌, ◌∷◌, [], Decides, MatchOption};
ghost use Rattle.pim_base.specs.Spelling.{SPACE, IsRecorded, IsReply, recorded_words, reply_words, refusal_word};
ghost use Rattle.pim_text.specs.Reading.{pieces, words, ReadsAs};

use crate::word::{count_of, cut, is, number_of};
use pim_base::{Refusal, Reply, TaskNo};

/// Reads `= <reply>`, or nothing where no reply was recorded; returns `None` where it is neither.
pub(crate) fn read_recorded(tail: Option<&[u8]>) -> Option<Option<Reply>>
    ensures { ReadsAs IsRecorded recorded_words (pieces SPACE tail.entry) result }
{
    let Some(rest) = tail else {
        return Some(None);
    };
    let (word, rest) = cut(rest, b' ');
    if !is(word, "=") {
        return None;
    }
    let reply = read_reply(rest?)?;
    Some(Some(reply))
}

/// Reads a reply, or returns `None`.
fn read_reply(rest: &[u8]) -> Option<Reply>
    ensures { ReadsAs IsReply reply_words (words rest.now) result }
{
    let (word, argument) = cut(rest, b' ');
    match argument {
        None => plain_reply(word),
        Some(argument) => reply_with(word, argument),
    }
}

/// Reads a reply of one word, or returns `None`.
fn plain_reply(word: &[u8]) -> Option<Reply>
    ensures { ReadsAs IsReply reply_words (word.now ∷ []) result }
{
    if is(word, "granted") {
        Some(Reply::Granted)
    } else if is(word, "queued") {
        Some(Reply::Queued)
    } else if is(word, "freed") {
        Some(Reply::Freed)
    } else if is(word, "withdrawn") {
        Some(Reply::Withdrawn)
    } else if is(word, "set") {
        Some(Reply::Set)
    } else if is(word, "kept") {
        Some(Reply::Kept)
    } else {
        None
    }
}

/// Reads a reply of a word and its argument, or returns `None`.
fn reply_with(word: &[u8], argument: &[u8]) -> Option<Reply>
    ensures { ReadsAs IsReply reply_words (word.now ∷ words argument.now) result }
{
    if is(word, "handed") {
        Some(Reply::Handed(TaskNo(number_of(argument)?)))
    } else if is(word, "released") {
        Some(Reply::Released(count_of(argument)?))
    } else if is(word, "refused") {
        Some(Reply::Refused(refusal_of(argument)?))
    } else {
        None
    }
}

/// Returns the refusal that has this name, or `None` where none has it.
fn refusal_of(name: &[u8]) -> Option<Refusal>
    ensures { MatchOption result ((r : Refusal) → name.now ≡ refusal_word r → ⊥) (λ r. name.now ≡ refusal_word r) }
{
    Refusal::ALL.iter().copied().find(
        |refusal: &Refusal| -> bool
            ensures { Decides result (name.entry.now ≡ refusal_word refusal.now) }
        { is(name, refusal.name()) },
    )
}
