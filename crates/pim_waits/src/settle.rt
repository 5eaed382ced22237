//! Works out anew what the threads of a component get.

ghost use Rattle.std.specs.Prelude.{◌≡◌, ◌≤◌, ◌<◌, ◌==◌, ◌||◌, true, false, Some, ℕ, Bool, length};
ghost use Rattle.std.specs.Prelude.{MatchOption};
ghost use Rattle.pim_base.specs.Lists.{contains};
ghost use Rattle.pim_base.specs.State.{State, IsTask};
ghost use Rattle.pim_base.specs.Chains.{heir};
ghost use Rattle.pim_base.specs.Priorities.{own_priority};
ghost use Rattle.pim_waits.specs.Around.{Around};
ghost use Rattle.pim_waits.specs.Flow.{Flows, IsLower, level_at, nobody};
ghost use Rattle.pim_waits.specs.Whole.{IsWhole};

use crate::component::Component;
use crate::facts::Facts;
use crate::place::{ThreadPlace, nth, put};
use pim_fact_lines::Level;

/// Works out anew what the threads of a component get. Reads no other threads, and no mutexes but
/// those that they own.
///
/// 1. `[1]` Give each thread its own level.
/// 2. `[2]` From each thread on, raise its heir to what it gets, and the heir's heir, until one
///    gets as much.
pub(crate) fn settle(facts: &Facts, gets: &mut Vec<Level>, component: &Component)
    requires room { component.now.room ≡ length facts.now.base }
    requires len { length gets.old.items ≡ length facts.now.base }
    ensures len { length gets.new.items ≡ length gets.old.items }
    ensures flows { (before : State)
        → Around before facts.now (contains component.now.threads)
        → Flows before (level_at gets.old.items) nobody
        → Flows facts.now (level_at gets.new.items) nobody }
    ensures whole { IsWhole facts.now }
{
    let _threads = facts.threads(); // owners are known threads, as its contract says
    let members = component.members();
    // [1]
    reset(facts, gets, members);
    // [2]
    for thread in members {
        pass_on(facts, gets, *thread);
    }
}

/// Gives each of these threads its own level.
fn reset(facts: &Facts, gets: &mut Vec<Level>, members: &[ThreadPlace])
    requires known { (t : ℕ) → contains members.now t ≡ true → IsTask facts.now t }
    requires len { length gets.old.items ≡ length facts.now.base }
    ensures len { length gets.new.items ≡ length gets.old.items }
    ensures inside { (t : ℕ)
        → contains members.now t ≡ true → level_at gets.new.items t ≡ own_priority facts.now t }
    ensures outside { (t : ℕ)
        → contains members.now t ≡ false → level_at gets.new.items t ≡ level_at gets.old.items t }
{
    for thread in members {
        put(gets, thread.0, facts.own(*thread));
    }
}

/// Raises the heir of a thread to what the thread gets, and the heir's heir, until one gets as
/// much.
fn pass_on(facts: &Facts, gets: &mut Vec<Level>, thread: ThreadPlace)
    requires whole { IsWhole facts.now }
    requires len { length gets.old.items ≡ length facts.now.base }
    ensures len { length gets.new.items ≡ length gets.old.items }
    ensures flows { (pending : ℕ → Bool)
        → Flows facts.now (level_at gets.old.items) (λ t. t == thread || pending t)
        → Flows facts.now (level_at gets.new.items) pending }
{
    let Some(level) = nth(gets, thread.0) else {
        return;
    };
    let mut from = thread;
    while let Some(heir) = lower_heir(facts, gets, from, level) {
        put(gets, heir.0, level);
        from = heir;
    }
}

/// Returns the heir of a thread, if it gets less than this level.
fn lower_heir(
    facts: &Facts,
    gets: &[Level],
    thread: ThreadPlace,
    level: Level,
) -> Option<ThreadPlace>
    ensures { MatchOption result
        ((t : ℕ) → heir facts.now thread ≡ Some t
        → 1 ≤ t → t ≤ length gets.now → level ≤ level_at gets.now t)
        (λ t. IsLower facts.now gets.now thread level t) }
{
    let heir = facts.heir(thread)?;
    let level_of_heir = nth(gets, heir.0)?;
    if level_of_heir < level {
        Some(heir)
    } else {
        None
    }
}
