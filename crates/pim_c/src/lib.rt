//! The manager for callers in C, and in all that calls C: kernels, run-time libraries, other languages.
//!
//! C holds a [`Handle`](handle::Handle), which is one pointer, null until `pim_make` makes a manager. Each function
//! takes the address of the handle, and returns a value or writes to memory of the caller. Only `pim_make` allocates,
//! and `pim_drop` frees. Any number may be passed: the answer says that it names no task or no mutex. `c/pim.h` is the
//! header, and `c/README.md` says how to link.
//!
//! ```text
//! struct pim_handle locks = PIM_HANDLE_INIT;
//! pim_make(&locks, bases, 3, protocols, 1); // PIM_MADE
//! pim_lock(&locks, 1, 1); // PIM_GRANTED
//! pim_lock(&locks, 3, 1); // PIM_QUEUED
//! pim_changed_prios(&locks, changed, 3); // 1: task 1 now executes at the priority of task 3
//! pim_drop(&locks);
//! ```
#![tactic(auto)]

mod answer;
mod changed_prio;
mod changed_task;
mod changing;
mod getters;
mod handed;
mod handle;
mod lists;
mod making;
mod numbers;
mod raw_box;
mod reason;
mod steps;
mod version;
mod waiter;
