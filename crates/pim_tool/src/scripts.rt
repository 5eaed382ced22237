//! The operations of each task of a script.
ghost use Rattle.std.specs.Prelude.{◌≡◌, ◌≤◌, map, length, IfOk};
ghost use Rattle.pim_base.specs.Scripts.{script_of, scripts_of};
ghost use Rattle.pim_base.specs.declared.limits.TheConstants.{MAX_WORKERS};
ghost use Rattle.pim_shared.specs.Gathered.{lines};
ghost use Rattle.pim_text.specs.Reading.{trace_of};

use pim_base::{Op, StepLine};
use pim_text::Text;
use std::alloc::{AllocError, Global};

/// Returns the operations of each task of the text, in order, task 1 first.
pub(crate) fn scripts_of(alloc: Global, text: &Text) -> Result<Vec<Vec<Op>>, AllocError>
    requires few { length text.now.bases.items ≤ MAX_WORKERS }
    ensures scripts { IfOk result (λ scripts. lines scripts.items ≡ scripts_of (trace_of text.now)) }
    ensures count { IfOk result (λ scripts. length scripts.items ≡ length text.now.bases.items) }
{
    let mut scripts = Vec::with_capacity(alloc, text.bases.len())?;
    for index in 0..text.bases.len() {
        let task = index as u16 + 1;
        scripts.push(script_of(alloc, &text.lines, task)?)?;
    }
    Ok(scripts)
}

/// Returns the operations of the task in the lines, in order.
fn script_of(alloc: Global, lines: &[StepLine], task: u16) -> Result<Vec<Op>, AllocError>
    ensures { IfOk result (λ script. script.items ≡ script_of lines.now task) }
{
    lines
        .iter()
        .filter(|line| line.step.actor.get() == task)
        .map(|line| line.step.op)
        .collect(alloc)
}
