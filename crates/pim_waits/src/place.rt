//! Where threads and mutexes are in the lists of a state.

ghost use Rattle.std.specs.Prelude.{◌≡◌, ◌≤◌, length};
ghost use Rattle.pim_base.specs.Lists.{nth, put};

use std::marker::Model;

/// The place of a thread in the order in which threads were added, from 1 on.
///
/// In contracts its value is the number itself.
#[derive(Clone, Copy, PartialEq, Eq)]
pub struct ThreadPlace(pub usize);

impl Model for ThreadPlace {
    ghost use Rattle.std.specs.Prelude.{ℕ};

    ghost Value = { ℕ };

    ghost view = { λ t. t.0 };

    ghost inverse = { λ n. record { 0 = n } };
}

/// The place of a mutex in the order in which mutexes were added, from 1 on.
///
/// In contracts its value is the number itself.
#[derive(Clone, Copy, PartialEq, Eq)]
pub struct MutexPlace(pub usize);

impl Model for MutexPlace {
    ghost use Rattle.std.specs.Prelude.{ℕ};

    ghost Value = { ℕ };

    ghost view = { λ m. m.0 };

    ghost inverse = { λ n. record { 0 = n } };
}

/// Returns the place of a thread, if there is one, as a number.
pub(crate) fn thread_number(thread: &Option<ThreadPlace>) -> Option<usize>
    ensures { result ≡ thread.now }
{
    match thread {
        Some(thread) => Some(thread.0),
        None => None,
    }
}

/// Returns the place of a mutex, if there is one, as a number.
pub(crate) fn mutex_number(mutex: &Option<MutexPlace>) -> Option<usize>
    ensures { result ≡ mutex.now }
{
    match mutex {
        Some(mutex) => Some(mutex.0),
        None => None,
    }
}

/// Returns the item at this place, or `None` if the list has no such place.
pub fn nth<T: Copy>(items: &[T], place: usize) -> Option<T>
    ensures { result ≡ nth items.now place }
{
    let index = place.checked_sub(1)?;
    items.get(index).copied()
}

/// Puts another item at this place. Nothing changes if the list has no such place.
pub fn put<T: Copy>(items: &mut Vec<T>, place: usize, item: T)
    ensures { items.new.items ≡ put items.old.items place item }
{
    if place == 0 {
        return;
    }
    if place > items.len() {
        return;
    }
    items[place - 1] = item;
}
