//! Priorities from plain numbers.

use pim_base::Prio;
use std::alloc::{AllocError, Global};
use std::process::Abort;

/// Returns the priority of this level.
pub(crate) fn prio(rt: &impl Abort, level: u16) -> Prio {
    Prio::new(level).expect(rt, "1 to 99")
}

/// Returns the priorities of these levels.
pub(crate) fn prios(
    rt: &impl Abort,
    alloc: Global,
    levels: &[u16],
) -> Result<Vec<Prio>, AllocError> {
    let mut prios = Vec::new(alloc);
    for level in levels {
        prios.push(prio(rt, *level))?;
    }
    Ok(prios)
}
