//! One line of a text, below the first.
ghost use Rattle.std.specs.Prelude.{◌≢◌, ℕ, codes, decimal, ◌∷◌};
ghost use Rattle.pim_base.specs.Spelling.{IsNumber, IsProtocol, protocol_words};
ghost use Rattle.pim_text.specs.Reading.{words, Reads, ReadsBytes, ReadsAs};

use crate::op::read_op;
use crate::reply::read_recorded;
use crate::word::{cut, cut_number, is, number_of, prio_of};
use pim_base::{Line, MutexNo, Protocol, Step, StepLine, TaskNo};

/// Returns the line below the first that the bytes spell, or `None` where they spell none.
pub(crate) fn read_line(bytes: &[u8]) -> Option<Line>
    ensures { ReadsBytes bytes.now result }
{
    if let Some((actor, rest)) = cut_number(bytes) {
        return read_step(actor, rest?);
    }
    let (first, rest) = cut(bytes, b' ');
    read_declaration(first, rest?)
}

/// Returns the declaration that the words spell, or `None` if they spell none. The first word was cut off.
fn read_declaration(first: &[u8], rest: &[u8]) -> Option<Line>
    requires no_number { (n : ℕ) → IsNumber n → first.now ≢ decimal n }
    ensures { Reads (first.now ∷ words rest.now) result }
{
    if is(first, "task") {
        read_task(rest)
    } else if is(first, "mutex") {
        read_mutex(rest)
    } else {
        None
    }
}

/// Reads `task <n> <prio>`, from the number on, or returns `None`.
fn read_task(rest: &[u8]) -> Option<Line>
    ensures { Reads (codes "task" ∷ words rest.now) result }
{
    let (number, base) = cut(rest, b' ');
    let number = number_of(number)?;
    let base = prio_of(base?)?;
    Some(Line::Task {
        number: TaskNo(number),
        base,
    })
}

/// Reads `mutex <n> <protocol>`, from the number on, or returns `None`.
fn read_mutex(rest: &[u8]) -> Option<Line>
    ensures { Reads (codes "mutex" ∷ words rest.now) result }
{
    let (number, protocol) = cut(rest, b' ');
    let number = number_of(number)?;
    let protocol = read_protocol(protocol?)?;
    Some(Line::Mutex {
        number: MutexNo(number),
        protocol,
    })
}

/// Reads `none`, `inherit`, `inherit recursive` or `protect <ceiling>`, or returns `None`.
fn read_protocol(rest: &[u8]) -> Option<Protocol>
    ensures { ReadsAs IsProtocol protocol_words (words rest.now) result }
{
    if is(rest, "none") {
        return Some(Protocol::None);
    }
    if is(rest, "inherit") {
        return Some(Protocol::Inherit);
    }
    if is(rest, "inherit recursive") {
        return Some(Protocol::InheritRecursive);
    }
    let (word, ceiling) = cut(rest, b' ');
    let ceiling = prio_of(ceiling?)?;
    if is(word, "protect") {
        Some(Protocol::Protect(ceiling))
    } else {
        None
    }
}

/// Reads `<a> <operation>`, perhaps with ` = <reply>` behind it, from the operation on, or returns `None`.
fn read_step(actor: u16, rest: &[u8]) -> Option<Line>
    requires number { IsNumber actor }
    ensures { Reads (decimal actor ∷ words rest.now) result }
{
    let (word, tail) = cut(rest, b' ');
    let Some((op, tail)) = read_op(word, tail) else {
        return None;
    };
    let recorded = read_recorded(tail)?;
    Some(Line::Step(StepLine {
        step: Step {
            actor: TaskNo(actor),
            op,
        },
        recorded,
    }))
}
