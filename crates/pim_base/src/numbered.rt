//! Lists whose places are numbered from 1, as tasks and mutexes are.

ghost use Rattle.std.specs.Prelude.{◌≡◌, max};
ghost use Rattle.pim_base.specs.Lists.{nth};

use crate::numbers::Prio;

/// Returns the item with this number, and `None` where the list has no such number.
pub fn nth<T: Copy>(items: &[T], number: u16) -> Option<T>
    ensures { result ≡ nth items.now number }
{
    let place = (number as usize).checked_sub(1)?;
    items.get(place).copied()
}

/// Returns the higher of two priorities.
pub fn higher(one: Prio, other: Prio) -> Prio
    ensures { result ≡ max one other }
{
    if one < other { other } else { one }
}
