//! The reading of a text, with the faults of this crate.
ghost use Rattle.std.specs.Prelude.{MatchResult};
ghost use Rattle.pim_base.specs.Texts.{lines_of, Spells, IsTrace};
ghost use Rattle.pim_base.specs.Scripts.{SpellsScript, IsScript};
ghost use Rattle.pim_text.specs.Reading.{trace_of};
ghost use Rattle.pim_judge.specs.Faults.{IsParseFault};

use crate::fault::Fault;
use pim_text::Text;
use std::alloc::Global;

/// Returns the trace that the bytes spell, as [`pim_text::parse`] does.
///
/// # Errors
///
/// `Fault::Line(n)` exactly if line n, counted from 1, is the first invalid one; `Fault::Memory` if out of memory.
/// There is no other fault.
pub fn parse(alloc: Global, bytes: &[u8]) -> Result<Text, Fault>
    ensures { MatchResult result
        (λ text. Spells (lines_of bytes.now) (trace_of text))
        (IsParseFault IsTrace (lines_of bytes.now)) }
{
    Ok(pim_text::parse(alloc, bytes)?)
}

/// Returns the script that the bytes spell, as [`pim_text::parse_script`] does. A script is a trace without recorded
/// replies, in which each actor is a declared task.
///
/// # Errors
///
/// `Fault::Line(n)` exactly if line n, counted from 1, is the first that is invalid in a script; `Fault::Memory` if
/// out of memory. There is no other fault.
pub fn parse_script(alloc: Global, bytes: &[u8]) -> Result<Text, Fault>
    ensures { MatchResult result
        (λ text. SpellsScript (lines_of bytes.now) (trace_of text))
        (IsParseFault IsScript (lines_of bytes.now)) }
{
    Ok(pim_text::parse_script(alloc, bytes)?)
}
