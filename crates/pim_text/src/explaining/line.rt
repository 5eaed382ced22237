//! The reason why one line is invalid, by what the lines before it declare.
ghost use Rattle.std.specs.Prelude.{Some, None, codes};
ghost use Rattle.pim_text.specs.Reading.{trace_of};
ghost use Rattle.pim_text.specs.declared.kind.Kind.{Kind};
ghost use Rattle.pim_text.specs.Words.{IsWord};
ghost use Rattle.pim_text.specs.Explains.{Says};

use crate::explaining::bytes::of_bytes;
use crate::explaining::reason::{NewWord, Reason};
use crate::explaining::step::of_step;
use crate::explaining::word::{NumberAt, has_word, misspells_prio, number_at};
use crate::kind::Kind;
use crate::text::Text;
use pim_base::{MAX_MUTEXES, MAX_TASKS};

/// Returns the reason why the first line is invalid.
#[tactic(auto, using(crate::proofs::WordPlaceLemmas::no_version))]
pub(crate) fn of_first_line(line: &[u8]) -> Reason
    ensures { (kind : Kind) → Says kind None line.now result }
{
    if let Some(reason) = of_bytes(line) {
        return reason;
    }
    if line == b"pim 1".as_slice() {
        return Reason::Other;
    }
    if line == b"pim 2".as_slice() {
        return Reason::Other;
    }
    Reason::Version
}

/// Returns the reason why a line after those of the text is invalid.
pub(crate) fn of_next_line(text: &Text, line: &[u8], kind: Kind) -> Reason
    ensures { Says kind (Some (trace_of text.now)) line.now result }
{
    if line.is_empty() {
        return Reason::EmptyLine;
    }
    if let Some(reason) = of_bytes(line) {
        return reason;
    }
    if has_word(line, 0, "task") {
        return of_task(text, line);
    }
    if has_word(line, 0, "mutex") {
        return of_mutex(text, line);
    }
    match number_at(line, 0) {
        NumberAt::Value(actor) => of_step(text, line, actor, kind),
        NumberAt::Wrong if line[0].is_ascii_digit() => Reason::Number(1),
        NumberAt::Wrong => Reason::FirstWord,
        NumberAt::Missing => Reason::Other,
    }
}

/// Returns the reason why the line of a task is invalid after those of the text.
fn of_task(text: &Text, line: &[u8]) -> Reason
    requires { IsWord line.now 0 (codes "task") }
    ensures { (kind : Kind) → Says kind (Some (trace_of text.now)) line.now result }
{
    if !text.protocols.is_empty() || !text.lines.is_empty() {
        return Reason::LateTask;
    }
    let number = match number_at(line, 1) {
        NumberAt::Missing => return Reason::Task,
        NumberAt::Wrong => return Reason::Number(2),
        NumberAt::Value(number) => number,
    };
    let next = text.bases.len() + 1;
    if next > MAX_TASKS {
        return Reason::TooManyTasks;
    }
    if usize::from(number) != next {
        return Reason::TaskNumber(next as u16);
    }
    if misspells_prio(line, 2) {
        Reason::Priority
    } else {
        Reason::Task
    }
}

/// Returns the reason why the line of a mutex is invalid after those of the text.
fn of_mutex(text: &Text, line: &[u8]) -> Reason
    requires { IsWord line.now 0 (codes "mutex") }
    ensures { (kind : Kind) → Says kind (Some (trace_of text.now)) line.now result }
{
    if !text.lines.is_empty() {
        return Reason::LateMutex;
    }
    let number = match number_at(line, 1) {
        NumberAt::Missing => return Reason::Mutex,
        NumberAt::Wrong => return Reason::Number(2),
        NumberAt::Value(number) => number,
    };
    let next = text.protocols.len() + 1;
    if next > MAX_MUTEXES {
        return Reason::TooManyMutexes;
    }
    if usize::from(number) != next {
        return Reason::MutexNumber(next as u16);
    }
    of_protocol(text, line)
}

/// Returns the reason that the protocol of a mutex gives.
fn of_protocol(text: &Text, line: &[u8]) -> Reason
    requires { IsWord line.now 0 (codes "mutex") }
    ensures { (kind : Kind) → Says kind (Some (trace_of text.now)) line.now result }
{
    if has_word(line, 2, "protect") && misspells_prio(line, 3) {
        return Reason::Ceiling;
    }
    if text.version == 1 && has_word(line, 2, "inherit") && has_word(line, 3, "recursive") {
        return Reason::New(NewWord::Recursive);
    }
    Reason::Mutex
}
