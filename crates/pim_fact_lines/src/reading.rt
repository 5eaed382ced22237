//! One line of a text, after the first.
//!
//! A `let .. else` that returns `None` is in place of a `?`: the generated proof can't pass a tuple
//! of a reference and of a type with an `impl Model` by value.
ghost use Rattle.std.specs.Prelude.{◌≡◌};
ghost use Rattle.pim_fact_lines.specs.Lines.{line_of, declaration_in, thread_in, mutex_in};
ghost use Rattle.pim_fact_lines.specs.Lines.{protocol_in, protocol_first, object_in, timed_in};
ghost use Rattle.pim_fact_lines.specs.Lines.{fact_in};
ghost use Rattle.pim_fact_lines.specs.Words.{words, is_kind};
ghost use Rattle.pim_fact_lines.specs.Reading.{words_after, first_of};

use crate::fact::cut_what;
use crate::line::{Line, MutexNo, ObjectNo, Protocol};
use crate::name::{are_names, are_places, is_nothing, is_one_name};
use crate::word::{cut, cut_level, cut_number, cut_positive, cut_thread, is};

/// Returns the line after the first that the bytes spell, or `None` if they spell none.
///
/// The names and the places that the line has are tested, but they aren't part of what is returned.
pub fn read_line(bytes: &[u8]) -> Option<Line>
    ensures { result ≡ line_of bytes.now }
{
    match cut_number(Some(bytes)) {
        Some((time, rest)) => read_timed(time, rest),
        None => read_declaration(bytes),
    }
}

/// Reads a line that begins with no number, or returns `None`.
fn read_declaration(bytes: &[u8]) -> Option<Line>
    ensures { result ≡ declaration_in (words bytes.now) }
{
    let (word, rest) = cut(bytes);
    if is(word, "thread") {
        return read_thread(rest);
    }
    if is(word, "mutex") {
        return read_mutex(rest);
    }
    if is(word, "object") {
        return read_object(rest);
    }
    if is(word, "unseen") && !is_nothing(rest) && are_names(rest) {
        return Some(Line::Unseen);
    }
    None
}

/// Reads `NUMBER LEVEL NAME` after `thread`, or returns `None`.
fn read_thread(tail: Option<&[u8]>) -> Option<Line>
    ensures { result ≡ thread_in (words_after tail.entry) }
{
    let Some((thread, rest)) = cut_thread(tail) else {
        return None;
    };
    let Some((level, rest)) = cut_level(rest) else {
        return None;
    };
    if !is_one_name(rest) {
        return None;
    }
    Some(Line::Thread(thread, level))
}

/// Reads `NUMBER [recursive] PROTOCOL NAME` after `mutex`, or returns `None`.
fn read_mutex(tail: Option<&[u8]>) -> Option<Line>
    ensures { result ≡ mutex_in (words_after tail.entry) }
{
    let (number, tail) = cut_positive(tail)?;
    let (word, rest) = cut(tail?);
    if is(word, "recursive") {
        read_protocol(number, true, rest)
    } else {
        read_protocol(number, false, tail)
    }
}

/// Reads `PROTOCOL NAME` of the mutex with a number, or returns `None`.
fn read_protocol(number: u64, is_recursive: bool, tail: Option<&[u8]>) -> Option<Line>
    ensures { result ≡ protocol_in number is_recursive (words_after tail.entry) }
{
    let Some((protocol, rest)) = cut_protocol(tail) else {
        return None;
    };
    if !is_one_name(rest) {
        return None;
    }
    Some(Line::Mutex {
        number: MutexNo(number),
        is_recursive,
        protocol,
    })
}

/// Returns the protocol that the words begin with, and the bytes after it; or `None` if they begin
/// with none.
fn cut_protocol(tail: Option<&[u8]>) -> Option<(Protocol, Option<&[u8]>)>
    ensures { first_of result ≡ protocol_first (words_after tail.entry) }
{
    let (word, rest) = cut(tail?);
    if is(word, "none") {
        return Some((Protocol::None, rest));
    }
    if is(word, "inherit") {
        return Some((Protocol::Inherit, rest));
    }
    if is(word, "protect") {
        let Some((ceiling, rest)) = cut_level(rest) else {
            return None;
        };
        return Some((Protocol::Protect(ceiling), rest));
    }
    None
}

/// Reads `NUMBER KIND NAME` after `object`, or returns `None`.
fn read_object(tail: Option<&[u8]>) -> Option<Line>
    ensures { result ≡ object_in (words_after tail.entry) }
{
    let (number, rest) = cut_positive(tail)?;
    let (kind, rest) = cut(rest?);
    if !is_kind(kind) {
        return None;
    }
    if !is_one_name(rest) {
        return None;
    }
    Some(Line::Object(ObjectNo(number)))
}

/// Returns whether the word is what an object can be.
fn is_kind(word: &[u8]) -> bool
    ensures { result ≡ is_kind word.now }
{
    is(word, "semaphore")
        || is(word, "rwlock")
        || is(word, "barrier")
        || is(word, "thread")
        || is(word, "condition")
        || is(word, "futex")
}

/// Reads a remark or a fact after its time, or returns `None`.
fn read_timed(time: u64, tail: Option<&[u8]>) -> Option<Line>
    ensures { result ≡ timed_in time (words_after tail.entry) }
{
    let (word, rest) = cut(tail?);
    if is(word, "lost") {
        let (_events, rest) = cut_positive(rest)?;
        return if is_nothing(rest) {
            Some(Line::Lost { time })
        } else {
            None
        };
    }
    if is(word, "end") {
        return if is_nothing(rest) {
            Some(Line::End { time })
        } else {
            None
        };
    }
    read_fact(time, tail)
}

/// Reads `THREAD WHAT [PLACE ..]` after a time, or returns `None`.
fn read_fact(time: u64, tail: Option<&[u8]>) -> Option<Line>
    ensures { result ≡ fact_in time (words_after tail.entry) }
{
    let Some((thread, rest)) = cut_thread(tail) else {
        return None;
    };
    let Some((what, rest)) = cut_what(rest) else {
        return None;
    };
    if !are_places(rest) {
        return None;
    }
    Some(Line::Fact { time, thread, what })
}

#[cfg(test)]
mod tests {
    use super::*;
    use crate::line::{Ended, What};
    use crate::malformed::{Malformed, why_not};
    use crate::text::{is_header, next_line};

    /// A line of each form and of each reason, and which it is.
    const LINES: [(&str, &str); 32] = [
        ("thread 7 30 high", "thread"),
        ("mutex 5 none -", "none"),
        ("mutex 5 recursive inherit map", "inherit"),
        ("mutex 5 protect 40 map", "protect"),
        ("object 6 futex futex", "object"),
        ("unseen waits of others", "unseen"),
        ("9 lost 2", "lost"),
        ("9 end", "end"),
        ("9 7 granted 5 map.c:1 main.c:2", "granted"),
        ("9 7 took 5", "took"),
        ("9 7 waits 5", "waits"),
        ("9 7 gave-up 5", "gave-up"),
        ("9 7 released 5", "released"),
        ("9 7 priority 0", "priority"),
        ("9 7 ceiling 5 100", "ceiling"),
        ("9 7 blocks 6", "blocks"),
        ("9 7 resumes 6 main.c:2", "resumes"),
        ("9 7 resumes 6 by 8", "by"),
        ("9 7 resumes 6 timed-out", "timed-out"),
        ("9 7 resumes 6 failed", "failed"),
        ("9 7 runs 99", "runs"),
        ("9 7 on 65535", "on"),
        ("9 7 off ready", "off ready"),
        ("9 7 off asleep", "off asleep"),
        ("threads 7 30 high", "Begin"),
        ("thread 7 101 high", "Thread"),
        ("mutex 5 map", "Mutex"),
        ("object 6 lock -", "Object"),
        ("unseen", "Unseen"),
        ("9 7 waits 5 of 8", "Fact"),
        ("9 lost", "Lost"),
        ("9 end here", "End"),
    ];

    #[test]
    fn line_of_each_form_is_read(rt: HostRuntime) {
        let (first, rest) = next_line(b"facts 1\n9 end");
        assert!(rt; is_header(first) && !is_header(rest));
        for (line, kind) in LINES {
            assert!(rt; kind_of(line.as_bytes()) == kind, "{line}");
        }
    }

    fn kind_of(bytes: &[u8]) -> &'static str {
        match read_line(bytes) {
            None => reason_of(why_not(bytes)),
            Some(Line::Thread(_, _)) => "thread",
            Some(Line::Mutex { protocol, .. }) => protocol_of(protocol),
            Some(Line::Object(_)) => "object",
            Some(Line::Unseen) => "unseen",
            Some(Line::Fact { what, .. }) => what_of(what),
            Some(Line::Lost { .. }) => "lost",
            Some(Line::End { .. }) => "end",
        }
    }

    fn protocol_of(protocol: Protocol) -> &'static str {
        match protocol {
            Protocol::None => "none",
            Protocol::Inherit => "inherit",
            Protocol::Protect(_) => "protect",
        }
    }

    fn what_of(what: What) -> &'static str {
        match what {
            What::Granted(_) => "granted",
            What::Took(_) => "took",
            What::Waits(_) => "waits",
            What::GaveUp(_) => "gave-up",
            What::Released(_) => "released",
            What::Priority(_) => "priority",
            What::Ceiling(_, _) => "ceiling",
            What::Blocks(_) => "blocks",
            What::Resumes(_, ended) => ended_of(ended),
            What::Runs(_) => "runs",
            What::On(_) => "on",
            What::OffReady => "off ready",
            What::OffAsleep => "off asleep",
        }
    }

    fn ended_of(ended: Ended) -> &'static str {
        match ended {
            Ended::Unknown => "resumes",
            Ended::By(_) => "by",
            Ended::TimedOut => "timed-out",
            Ended::Failed => "failed",
        }
    }

    fn reason_of(why: Malformed) -> &'static str {
        match why {
            Malformed::Begin => "Begin",
            Malformed::Thread => "Thread",
            Malformed::Mutex => "Mutex",
            Malformed::Object => "Object",
            Malformed::Unseen => "Unseen",
            Malformed::Fact => "Fact",
            Malformed::Lost => "Lost",
            Malformed::End => "End",
        }
    }
}
