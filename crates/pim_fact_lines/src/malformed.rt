//! Why bytes are no line of a text.

use crate::word::{cut, cut_number, is};
use std::fmt;

/// How a line should begin, or which form it should have.
#[derive(Clone, Copy, Debug)]
pub enum Malformed {
    /// It begins with none of the words with which lines begin.
    Begin,
    /// It should declare a thread.
    Thread,
    /// It should declare a mutex.
    Mutex,
    /// It should declare an object.
    Object,
    /// It should say what the recorder couldn't see.
    Unseen,
    /// It should say what happened to a thread.
    Fact,
    /// It should say how many events are missing.
    Lost,
    /// It should end the recording.
    End,
}

impl fmt::Display for Malformed {
    fn fmt<W: fmt::Write>(&self, f: &mut fmt::Formatter<W>) -> fmt::Result {
        f.write_str(match self {
            Malformed::Begin =>
                "a line begins with thread, mutex, object, unseen, or a time in nanoseconds",
            Malformed::Thread => "it should be: thread NUMBER LEVEL NAME",
            Malformed::Mutex =>
                "it should be: mutex NUMBER [recursive] none|inherit|protect CEILING NAME",
            Malformed::Object =>
                "it should be: object NUMBER semaphore|rwlock|barrier|thread|condition|futex NAME",
            Malformed::Unseen => "it should be: unseen WORD ..",
            Malformed::Fact =>
                "it should be: TIME THREAD granted|took|waits|gave-up|released MUTEX, \
                priority|runs LEVEL, ceiling MUTEX LEVEL, blocks OBJECT, \
                resumes OBJECT [by THREAD|timed-out|failed], on CPU or off ready|asleep, \
                and up to 16 places",
            Malformed::Lost => "it should be: TIME lost NUMBER",
            Malformed::End => "it should be: TIME end",
        })
    }
}

/// Returns why bytes that spell no line don't: how they should begin, or else the form that lines
/// with their first words have.
pub fn why_not(bytes: &[u8]) -> Malformed {
    let (first, rest) = cut(bytes);
    if is(first, "thread") {
        Malformed::Thread
    } else if is(first, "mutex") {
        Malformed::Mutex
    } else if is(first, "object") {
        Malformed::Object
    } else if is(first, "unseen") {
        Malformed::Unseen
    } else if cut_number(Some(first)).is_some() {
        why_not_timed(rest)
    } else {
        Malformed::Begin
    }
}

/// Returns the form of a line that has this after its time.
fn why_not_timed(tail: Option<&[u8]>) -> Malformed {
    let Some(bytes) = tail else {
        return Malformed::Fact;
    };
    let (word, _rest) = cut(bytes);
    if is(word, "lost") {
        Malformed::Lost
    } else if is(word, "end") {
        Malformed::End
    } else {
        Malformed::Fact
    }
}
