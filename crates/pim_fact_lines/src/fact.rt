//! What a fact says after its time and its thread.
//!
//! A `let .. else` that returns `None` is in place of a `?`: the generated proof can't pass a tuple
//! of a reference and of a type with an `impl Model` by value.
ghost use Rattle.std.specs.Prelude.{◌≡◌};
ghost use Rattle.pim_fact_lines.specs.Lines.{what_first, other_first, ceiling_first, resumes_first};
ghost use Rattle.pim_fact_lines.specs.Lines.{ended_first, on_first, off_first};
ghost use Rattle.pim_fact_lines.specs.Reading.{words_after, first_of};

use crate::line::{CpuNo, Ended, MAX_CPU, MutexNo, ObjectNo, What};
use crate::word::{cut, cut_level, cut_positive, cut_thread, cut_within, is};

/// Returns what the words that are left of a line say happened, and the bytes after it; or `None`
/// if they say nothing.
pub(crate) fn cut_what(tail: Option<&[u8]>) -> Option<(What, Option<&[u8]>)>
    ensures { first_of result ≡ what_first (words_after tail.entry) }
{
    let (word, rest) = cut(tail?);
    if is(word, "granted") {
        let (mutex, rest) = cut_positive(rest)?;
        return Some((What::Granted(MutexNo(mutex)), rest));
    }
    if is(word, "took") {
        let (mutex, rest) = cut_positive(rest)?;
        return Some((What::Took(MutexNo(mutex)), rest));
    }
    if is(word, "waits") {
        let (mutex, rest) = cut_positive(rest)?;
        return Some((What::Waits(MutexNo(mutex)), rest));
    }
    if is(word, "gave-up") {
        let (mutex, rest) = cut_positive(rest)?;
        return Some((What::GaveUp(MutexNo(mutex)), rest));
    }
    if is(word, "released") {
        let (mutex, rest) = cut_positive(rest)?;
        return Some((What::Released(MutexNo(mutex)), rest));
    }
    if is(word, "ceiling") {
        return cut_ceiling(rest);
    }
    cut_other(word, rest)
}

/// Returns what else this word and the words after it say happened, and the bytes after it; or
/// `None` if they say nothing.
fn cut_other<'a>(word: &[u8], tail: Option<&'a [u8]>) -> Option<(What, Option<&'a [u8]>)>
    ensures { first_of result ≡ other_first word.now (words_after tail.entry) }
{
    if is(word, "priority") {
        let Some((level, rest)) = cut_level(tail) else {
            return None;
        };
        return Some((What::Priority(level), rest));
    }
    if is(word, "blocks") {
        let (object, rest) = cut_positive(tail)?;
        return Some((What::Blocks(ObjectNo(object)), rest));
    }
    if is(word, "resumes") {
        return cut_resumes(tail);
    }
    if is(word, "runs") {
        let Some((level, rest)) = cut_level(tail) else {
            return None;
        };
        return Some((What::Runs(level), rest));
    }
    if is(word, "on") {
        return cut_on(tail);
    }
    if is(word, "off") {
        return cut_off(tail);
    }
    None
}

/// Reads `MUTEX LEVEL` after `ceiling`, or returns `None`.
fn cut_ceiling(tail: Option<&[u8]>) -> Option<(What, Option<&[u8]>)>
    ensures { first_of result ≡ ceiling_first (words_after tail.entry) }
{
    let (mutex, rest) = cut_positive(tail)?;
    let Some((level, rest)) = cut_level(rest) else {
        return None;
    };
    Some((What::Ceiling(MutexNo(mutex), level), rest))
}

/// Reads `OBJECT [by THREAD|timed-out|failed]` after `resumes`, or returns `None`.
fn cut_resumes(tail: Option<&[u8]>) -> Option<(What, Option<&[u8]>)>
    ensures { first_of result ≡ resumes_first (words_after tail.entry) }
{
    let (object, rest) = cut_positive(tail)?;
    let Some((ended, rest)) = cut_ended(rest) else {
        return None;
    };
    Some((What::Resumes(ObjectNo(object), ended), rest))
}

/// Reads how a wait ended, if the words say it, or returns `None`.
fn cut_ended(tail: Option<&[u8]>) -> Option<(Ended, Option<&[u8]>)>
    ensures { first_of result ≡ ended_first (words_after tail.entry) }
{
    let Some(bytes) = tail else {
        return Some((Ended::Unknown, None));
    };
    let (word, rest) = cut(bytes);
    if is(word, "by") {
        let Some((thread, rest)) = cut_thread(rest) else {
            return None;
        };
        return Some((Ended::By(thread), rest));
    }
    if is(word, "timed-out") {
        return Some((Ended::TimedOut, rest));
    }
    if is(word, "failed") {
        return Some((Ended::Failed, rest));
    }
    Some((Ended::Unknown, tail))
}

/// Reads `CPU` after `on`, or returns `None`.
fn cut_on(tail: Option<&[u8]>) -> Option<(What, Option<&[u8]>)>
    ensures { first_of result ≡ on_first (words_after tail.entry) }
{
    let (cpu, rest) = cut_within(tail, 0, MAX_CPU)?;
    Some((What::On(CpuNo(cpu as u16)), rest))
}

/// Reads `ready` or `asleep` after `off`, or returns `None`.
fn cut_off(tail: Option<&[u8]>) -> Option<(What, Option<&[u8]>)>
    ensures { first_of result ≡ off_first (words_after tail.entry) }
{
    let (word, rest) = cut(tail?);
    if is(word, "ready") {
        return Some((What::OffReady, rest));
    }
    if is(word, "asleep") {
        return Some((What::OffAsleep, rest));
    }
    None
}
