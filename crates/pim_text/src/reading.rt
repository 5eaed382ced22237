//! From the bytes of a text to what it says.
ghost use Rattle.std.specs.Prelude.{◌≡◌, ◌<◌, List, ℕ, ◌∷◌, [], ◌++◌, length, IfOk, MatchResult};
ghost use Rattle.std.specs.Bool.{MatchBool};
ghost use Rattle.pim_base.specs.Texts.{lines_of, Spells, IsTrace};
ghost use Rattle.pim_base.specs.Scripts.{SpellsScript, IsScript};
ghost use Rattle.pim_base.specs.Spelling.{version_line};
ghost use Rattle.pim_text.specs.Reading.{trace_of, ReadsAs, IsVersion};
ghost use Rattle.pim_text.specs.Kinds.{SpellsAs, IsOf, IsTextFault};

use crate::fault::TextFault;
use crate::kind::Kind;
use crate::line::read_line;
use crate::text::Text;
use crate::word::{cut, is};
use std::alloc::{AllocError, Global};

/// Returns the trace that the bytes spell, line by line.
///
/// Each byte is looked at a bounded number of times.
///
/// # Errors
///
/// `TextFault::Line(n)` exactly where line n, counted from 1, is the first invalid one; `TextFault::Memory` if out
/// of memory.
pub fn parse(alloc: Global, bytes: &[u8]) -> Result<Text, TextFault>
    ensures { MatchResult result
        (λ text. Spells (lines_of bytes.now) (trace_of text))
        (IsTextFault IsTrace (lines_of bytes.now)) }
{
    read(alloc, bytes, Kind::Trace)
}

/// Returns the script that the bytes spell: a trace in which no reply is recorded, and in which each actor is a
/// declared task.
///
/// # Errors
///
/// `TextFault::Line(n)` exactly where line n, counted from 1, is the first that is invalid in a script;
/// `TextFault::Memory` if out of memory.
pub fn parse_script(alloc: Global, bytes: &[u8]) -> Result<Text, TextFault>
    ensures { MatchResult result
        (λ text. SpellsScript (lines_of bytes.now) (trace_of text))
        (IsTextFault IsScript (lines_of bytes.now)) }
{
    read(alloc, bytes, Kind::Script)
}

/// Returns the text of this kind that the bytes spell.
fn read(alloc: Global, bytes: &[u8], kind: Kind) -> Result<Text, TextFault>
    ensures { MatchResult result
        (λ text. SpellsAs kind (lines_of bytes.now) (trace_of text))
        (IsTextFault (IsOf kind) (lines_of bytes.now)) }
{
    if bytes.is_empty() {
        return Err(TextFault::Line(1));
    }
    let (first, mut rest) = next_line(bytes);
    let Some(version) = version_of(first) else {
        return Err(TextFault::Line(1));
    };
    let mut text = Text::new(alloc, version);
    let mut number = 1;
    while !rest.is_empty() {
        let (line, after) = next_line(rest);
        number += 1;
        if !add_line(&mut text, line, kind)? {
            return Err(TextFault::Line(number));
        }
        rest = after;
    }
    Ok(text)
}

/// Returns the version that the first line names, or `None` where it names none that there is.
fn version_of(line: &[u8]) -> Option<u8>
    ensures { ReadsAs IsVersion version_line line.now result }
{
    if is(line, "pim 1") {
        Some(1)
    } else if is(line, "pim 2") {
        Some(2)
    } else {
        None
    }
}

/// Returns the first line, and the bytes below it.
#[inline]
fn next_line(bytes: &[u8]) -> (&[u8], &[u8])
    requires { 0 < length bytes.now }
    ensures lines { lines_of bytes.now ≡ result.0.now ∷ lines_of result.1.now }
    ensures shorter { length result.1.now < length bytes.now }
{
    let (line, rest) = cut(bytes, b'\n');
    (line, rest.unwrap_or(&[]))
}

/// Takes one more line, and returns whether it is valid below those of the text.
fn add_line(text: &mut Text, bytes: &[u8], kind: Kind) -> Result<bool, AllocError>
    ensures { IfOk result (λ added. (ls : List (List ℕ)) → SpellsAs kind ls (trace_of text.old) → MatchBool added
        (SpellsAs kind (ls ++ bytes.now ∷ []) (trace_of text.new))
        (IsOf kind (ls ++ bytes.now ∷ []) → ⊥)) }
{
    let Some(line) = read_line(bytes) else {
        return Ok(false);
    };
    if !text.version_has(&line) {
        return Ok(false);
    }
    if !text.allows(&line, kind) {
        return Ok(false);
    }
    text.add(&line)
}
