//! As many readers as a shared manager can have.

use crate::making::{base, shared};
use crate::rows::look;
use pim_base::{MAX_LOOKERS, Reason};
use pim_shared::Looker;
use std::alloc::Global;
use std::process::Abort;
use std::sync::Wait;

/// How many readers see one entry, which set the base of task 2 to 70.
fn looks(lookers: &mut [Looker]) -> u16 {
    let mut right = 0u16;
    for looker in lookers {
        if look(looker, 2) == Ok(Some((1, 70, Reason::Base))) {
            right = right.saturating_add(1);
        }
    }
    right
}

/// How many of this number of readers see the only call of their own manager, while another one is shared.
fn looked<R: Wait + Abort>(rt: &R, alloc: Global, count: u16) -> u16 {
    let (shared, mut lookers) = shared(rt, alloc, 1, count);
    let _set = shared.call(rt, base(2, 70));
    let right = looks(&mut lookers);
    let (_, _log) = shared.finish(rt);
    right
}

#[test]
fn as_many_readers_as_asked_for_see_the_call(rt: HostRuntime) {
    for count in 0..MAX_LOOKERS + 1 {
        let right = looked(&rt, rt.alloc(), count);
        assert!(rt; right == count, "{right} of {count}");
    }
}
