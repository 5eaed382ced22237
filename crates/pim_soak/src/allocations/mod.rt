//! What each call that allocates returns while allocations fail.
//!
//! `tests/program` makes each call again and again: its first allocation fails, then its second, and so on. A call whose
//! allocation fails must say so and change nothing, and what comes after it must work. It then ends in
//! [`Failure::InCall`].

mod managers;
mod shared;
mod tables;
mod texts;

use std::alloc::Global;
use std::sync::Wait;
use std::thread::Threads;
use thiserror::Error;

/// Why a call isn't right, or was out of memory.
#[derive(Clone, Copy, Debug, PartialEq, Eq, Error)]
pub enum Failure {
    /// An allocation failed before the call.
    #[error("out of memory before the call")]
    Before,
    /// An allocation of the call failed, and it changed nothing.
    #[error("out of memory in the call")]
    InCall,
    /// What the call returned or left isn't right.
    #[error("wrong")]
    Wrong,
}

/// Fails unless this is right.
fn expect(is_right: bool) -> Result<(), Failure> {
    if is_right {
        Ok(())
    } else {
        Err(Failure::Wrong)
    }
}

/// Fails unless what the call returned is right. It is `None` if an allocation of the call failed.
fn expect_right(is_right: Option<bool>) -> Result<(), Failure> {
    match is_right {
        Some(is_right) => expect(is_right),
        None => Err(Failure::InCall),
    }
}

/// A call that allocates, or a few of one shared manager.
#[derive(Clone, Copy, Debug, PartialEq, Eq)]
pub enum Call {
    Parse,
    ParseScript,
    JudgeBytes,
    New,
    WithNextTicket,
    TryClone,
    RunReplies,
    TrackedManager,
    Tables,
    CopiedTables,
    Queue,
    CopiedQueue,
    SharedNew,
    SharedCall,
    CallWith,
    CallBesideAWaitingTask,
    RunScripts,
}

impl Call {
    /// All of them.
    pub const ALL: [Call; 17] = [
        Call::Parse,
        Call::ParseScript,
        Call::JudgeBytes,
        Call::New,
        Call::WithNextTicket,
        Call::TryClone,
        Call::RunReplies,
        Call::TrackedManager,
        Call::Tables,
        Call::CopiedTables,
        Call::Queue,
        Call::CopiedQueue,
        Call::SharedNew,
        Call::SharedCall,
        Call::CallWith,
        Call::CallBesideAWaitingTask,
        Call::RunScripts,
    ];

    pub fn name(self) -> &'static str {
        match self {
            Call::Parse => "parse",
            Call::ParseScript => "parse_script",
            Call::JudgeBytes => "judge_bytes",
            Call::New => "new",
            Call::WithNextTicket => "with_next_ticket",
            Call::TryClone => "try_clone",
            Call::RunReplies => "run_replies",
            Call::TrackedManager => "tracked_manager",
            Call::Tables => "tables",
            Call::CopiedTables => "copied_tables",
            Call::Queue => "queue",
            Call::CopiedQueue => "copied_queue",
            Call::SharedNew => "shared_new",
            Call::SharedCall => "call",
            Call::CallWith => "call_with",
            Call::CallBesideAWaitingTask => "call_beside_a_waiting_task",
            Call::RunScripts => "run_scripts",
        }
    }

    /// Makes the call, and looks at what it returns and leaves.
    ///
    /// # Errors
    ///
    /// `Before` or `InCall` if an allocation failed, `Wrong` if something isn't as it should be.
    pub fn make<R: Threads + Wait + Sync>(self, rt: &R, alloc: Global) -> Result<(), Failure> {
        match self {
            Call::Parse => texts::parsed(alloc),
            Call::ParseScript => texts::parsed_script(alloc),
            Call::JudgeBytes => texts::judged(alloc),
            Call::New => managers::new(alloc),
            Call::WithNextTicket => managers::with_next_ticket(alloc),
            Call::TryClone => managers::try_clone(alloc),
            Call::RunReplies => managers::run_replies(alloc),
            Call::TrackedManager => managers::tracked_manager(alloc),
            Call::Tables => tables::made_tables(alloc),
            Call::CopiedTables => tables::copied_tables(alloc),
            Call::Queue => tables::made_queue(alloc),
            Call::CopiedQueue => tables::copied_queue(alloc),
            Call::SharedNew => shared::shared_new(rt, alloc),
            Call::SharedCall => shared::call(rt, alloc),
            Call::CallWith => shared::call_with(rt, alloc),
            Call::CallBesideAWaitingTask => shared::call_beside_a_waiting_task(rt, alloc),
            Call::RunScripts => shared::run_scripts_in_opposite_orders(rt, alloc),
        }
    }
}
