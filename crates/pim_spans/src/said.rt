//! Whether the same holds.

ghost use Rattle.std.specs.Prelude.{◌≡◌};
ghost use Rattle.pim_spans.specs.Spans.{same};

use pim_world::Key;

/// Returns whether the same holds.
pub(crate) fn same(old: Option<Key>, new: Option<Key>) -> bool
    ensures { result ≡ same old new }
{
    match old {
        Some(old) => match new {
            Some(new) => old.0 == new.0 && old.1 == new.1 && old.2 == new.2,
            None => false,
        },
        None => new.is_none(),
    }
}
