//! The reason why the line of a step is invalid.
ghost use Rattle.std.specs.Prelude.{◌≤◌, Option, Some, IfSome, codes, decimal};
ghost use Rattle.pim_base.specs.Spelling.{IsNumber};
ghost use Rattle.pim_base.specs.Texts.{Trace};
ghost use Rattle.pim_text.specs.Reading.{trace_of};
ghost use Rattle.pim_text.specs.declared.kind.Kind.{Kind};
ghost use Rattle.pim_text.specs.Words.{IsWord};
ghost use Rattle.pim_text.specs.Explains.{Says, IsStep, HasWord, last_of};

use crate::explaining::reason::{NewWord, Reason};
use crate::explaining::word::{NumberAt, has_word, number_at, word_at};
use crate::kind::Kind;
use crate::text::Text;
use pim_base::MAX_STEPS;

/// Returns the reason why the line of a step is invalid after those of the text.
pub(crate) fn of_step(text: &Text, line: &[u8], actor: u16, kind: Kind) -> Reason
    requires number { IsNumber actor }
    requires first { IsWord line.now 0 (decimal actor) }
    ensures { Says kind (Some (trace_of text.now)) line.now result }
{
    if text.lines.len() >= MAX_STEPS {
        return Reason::TooManySteps;
    }
    let Some(count) = operands_of(line) else {
        return Reason::Step;
    };
    if let Some(reason) = of_operands(line, count) {
        return reason;
    }
    if text.version == 1 && has_word(line, 1, "ceil") {
        return Reason::New(NewWord::Ceil);
    }
    if has_word(line, 2 + count, "=") {
        return of_reply(text, line, 2 + count, kind);
    }
    if word_at(line, 2 + count).is_some() {
        return Reason::Extra;
    }
    if kind == Kind::Script && usize::from(actor) > text.bases.len() {
        return Reason::Undeclared(actor);
    }
    Reason::Other
}

/// Returns how many numbers follow the operation, or `None` if it is none.
fn operands_of(line: &[u8]) -> Option<usize>
    ensures { IfSome result (λ count. count ≤ 2) }
{
    if has_word(line, 1, "release") {
        Some(0)
    } else if has_word(line, 1, "base") || has_word(line, 1, "ceil") {
        Some(2)
    } else if has_word(line, 1, "lock")
        || has_word(line, 1, "try")
        || has_word(line, 1, "unlock")
        || has_word(line, 1, "cancel")
    {
        Some(1)
    } else {
        None
    }
}

/// Returns the reason that the first of the operation's numbers gives which is missing or wrong.
fn of_operands(line: &[u8], count: usize) -> Option<Reason>
    requires few { count ≤ 2 }
    requires step { IsStep line.now }
    ensures { (kind : Kind) (before : Option Trace) → IfSome result (Says kind before line.now) }
{
    for place in 2..2 + count {
        match number_at(line, place) {
            NumberAt::Missing => return Some(Reason::Step),
            NumberAt::Wrong => return Some(Reason::Number(place as u32 + 1)),
            NumberAt::Value(_) => {}
        }
    }
    None
}

/// Returns the reason that a recorded reply gives. It begins behind the equals sign at this place.
fn of_reply(text: &Text, line: &[u8], equals: usize, kind: Kind) -> Reason
    requires few { equals ≤ 4 }
    requires step { IsStep line.now }
    requires equals { IsWord line.now equals (codes "=") }
    ensures { Says kind (Some (trace_of text.now)) line.now result }
{
    if kind == Kind::Script {
        return Reason::Recorded;
    }
    let place = equals + 1;
    if text.version == 1 {
        if let Some(word) = new_word_of(line, place) {
            return Reason::New(word);
        }
    }
    match number_at(line, place + 1) {
        NumberAt::Wrong if has_word(line, place, "handed") => Reason::Number(place as u32 + 2),
        _ => Reason::Reply,
    }
}

/// Returns which reply of version 2 is at this place, or `None` if none is.
fn new_word_of(line: &[u8], place: usize) -> Option<NewWord>
    requires { place ≤ 5 }
    ensures { IfSome result (λ word. HasWord line.now (last_of word)) }
{
    if has_word(line, place, "kept") {
        return Some(NewWord::Kept);
    }
    if !has_word(line, place, "refused") {
        return None;
    }
    if has_word(line, place + 1, "not-protect") {
        Some(NewWord::NotProtect)
    } else if has_word(line, place + 1, "again") {
        Some(NewWord::Again)
    } else {
        None
    }
}
