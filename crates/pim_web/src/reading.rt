//! The parser of a text in the host's memory.

ghost use Rattle.std.specs.Prelude.{◌≡◌, ◌≢◌, ◌⊎◌, map};
ghost use Rattle.pim_base.specs.Texts.{lines_of, FirstBadLine};
ghost use Rattle.pim_ffi.specs.Copied.{copied};
ghost use Rattle.pim_ffi.specs.Protocols.{c_protocol};
ghost use Rattle.pim_web.specs.Parts.{c_base, c_step, invalid, unread, IsRead};
ghost use Rattle.pim_web.specs.declared.numbers.TheConstants.{ACCEPTED, INVALID};

use crate::numbers::{ACCEPTED, INVALID, NO_MEMORY};
use crate::parts::{CStep, base_of};
use pim_base::{Prio, Protocol, StepLine};
use pim_ffi::CProtocol;
use pim_text::{TextFault, parse};
use std::alloc::Global;

/// How many tasks, mutexes and steps a text has, or the fault that prevented reading it.
#[repr(C)]
#[derive(Clone, Copy)]
pub struct CRead {
    /// ACCEPTED, INVALID or NO_MEMORY.
    pub kind: u32,
    /// The first invalid line, or 0.
    pub line: u32,
    /// The number of tasks, or 0.
    pub tasks: u64,
    /// The number of mutexes, or 0.
    pub mutexes: u64,
    /// The number of steps, or 0.
    pub steps: u64,
}

/// Reads the text, and copies its base priorities, protocols and steps into the buffers, as far as they fit.
#[unsafe(no_mangle)]
pub extern "C" fn pim_read(
    alloc: Global,
    text: &[u8],
    bases: &mut [u16],
    protocols: &mut [CProtocol],
    steps: &mut [CStep],
) -> CRead
    // The text spells a trace, and the buffers have its parts.
    ensures read { result.kind ≡ ACCEPTED
        → IsRead text.now result (bases.old, bases.new) (protocols.old, protocols.new) (steps.old, steps.new) }

    // The line is the first invalid one.
    ensures line { result.kind ≡ INVALID → FirstBadLine (lines_of text.now) result.line }

    // Each other answer is one of these two, with no parts.
    ensures others { result.kind ≢ ACCEPTED → result ≡ invalid result.line ⊎ result ≡ unread }

    // An answer with no parts leaves the buffers as they were.
    ensures unchanged { result.kind ≢ ACCEPTED
        → (bases.new ≡ bases.old) × (protocols.new ≡ protocols.old) × (steps.new ≡ steps.old) }
{
    match parse(alloc, text) {
        Ok(text) => {
            copy_bases(&text.bases, bases);
            copy_protocols(&text.protocols, protocols);
            copy_steps(&text.lines, steps);
            CRead {
                kind: ACCEPTED,
                line: 0,
                tasks: text.bases.len() as u64,
                mutexes: text.protocols.len() as u64,
                steps: text.lines.len() as u64,
            }
        }
        Err(TextFault::Line(line)) => CRead {
            kind: INVALID,
            line,
            tasks: 0,
            mutexes: 0,
            steps: 0,
        },
        Err(TextFault::Memory) => CRead {
            kind: NO_MEMORY,
            line: 0,
            tasks: 0,
            mutexes: 0,
            steps: 0,
        },
    }
}

/// Copies the base priorities as far as they fit.
fn copy_bases(from: &[Prio], to: &mut [u16])
    ensures { to.new ≡ copied (map c_base from.now) to.old }
{
    let room = to.len();
    let count = if from.len() < room { from.len() } else { room };
    for place in 0..count {
        to[place] = base_of(from[place]);
    }
}

/// Copies the protocols as far as they fit.
fn copy_protocols(from: &[Protocol], to: &mut [CProtocol])
    ensures { to.new ≡ copied (map c_protocol from.now) to.old }
{
    let room = to.len();
    let count = if from.len() < room { from.len() } else { room };
    for place in 0..count {
        to[place] = CProtocol::of(from[place]);
    }
}

/// Copies the steps as far as they fit.
fn copy_steps(from: &[StepLine], to: &mut [CStep])
    ensures { to.new ≡ copied (map c_step from.now) to.old }
{
    let room = to.len();
    let count = if from.len() < room { from.len() } else { room };
    for place in 0..count {
        to[place] = CStep::of(from[place]);
    }
}
