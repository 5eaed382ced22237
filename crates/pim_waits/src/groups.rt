//! Lists of numbers, by place.

ghost use Rattle.std.specs.Prelude.{◌≡◌, ◌<◌, ◌+◌, ◌^◌, ◌==◌, ◌++◌, ◌∷◌, [], ℕ, not, length};
ghost use Rattle.std.specs.Prelude.{Option, IfSome, OnOk, OnErr, if◌then◌else◌};
ghost use Rattle.std.specs.List.{filter};
ghost use Rattle.pim_waits.specs.Groups.{group_in, group_of, IsBy, moved};

use std::alloc::{AllocError, Global};

/// A list of numbers for each place: for each thread its mutexes, or for each mutex its threads.
#[derive(Drop)]
pub(crate) struct Groups {
    /// Those up to the last one to which a number was added.
    lists: Vec<Vec<usize>>,
}

impl Groups {
    /// Returns empty lists. Allocates nothing.
    pub fn new(alloc: Global) -> Groups
        ensures { (one : ℕ) → group_of result one ≡ [] }
    {
        Groups {
            lists: Vec::new(alloc),
        }
    }

    /// Returns the list for a place.
    pub fn of(&self, place: usize) -> &[usize]
        ensures { result.now ≡ group_of self.now place }
    {
        match self.lists.get(place) {
            Some(list) => list.as_slice(),
            None => &[],
        }
    }

    /// Moves a number from the list for one place to that for another.
    ///
    /// # Errors
    ///
    /// Returns `AllocError` if out of memory. The lists are as they were.
    pub fn transfer(
        &mut self,
        number: usize,
        from: Option<usize>,
        to: Option<usize>,
    ) -> Result<(), AllocError>
        requires { IfSome to (λ place. place + 1 < 2 ^ 64) }
        ensures ok { OnOk result ((f : ℕ → Option ℕ)
            → f number ≡ from → IsBy self.old f → IsBy self.new (moved f number to)) }
        ensures err { OnErr result ((f : ℕ → Option ℕ) → IsBy self.old f → IsBy self.new f) }
    {
        if from == to {
            return Ok(());
        }
        if let Some(place) = to {
            self.add(place, number)?;
        }
        if let Some(place) = from {
            self.remove(place, number);
        }
        Ok(())
    }

    /// Adds a number to the list for a place.
    ///
    /// # Errors
    ///
    /// Returns `AllocError` if out of memory. The lists are as they were.
    fn add(&mut self, place: usize, number: usize) -> Result<(), AllocError>
        requires { place + 1 < 2 ^ 64 }
        ensures added { OnOk result ((one : ℕ) → group_of self.new one ≡
            (if one == place
            then group_of self.old one ++ number ∷ [] else group_of self.old one)) }
        ensures err { OnErr result ((one : ℕ) → group_of self.new one ≡ group_of self.old one) }
    {
        make_room(&mut self.lists, place)?;
        let Some(list) = self.lists.get_mut(place) else {
            unreachable!()
        };
        match list.push(number) {
            Ok(()) => Ok(()),
            Err(_) => Err(AllocError),
        }
    }

    /// Removes a number from the list for a place, if it is there.
    fn remove(&mut self, place: usize, number: usize)
        ensures { (one : ℕ) → group_of self.new one ≡
            (if one == place then filter (λ other. not (other == number)) (group_of self.old one)
            else group_of self.old one) }
    {
        if let Some(list) = self.lists.get_mut(place) {
            remove(list, number);
        }
    }
}

/// Makes room for the list for a place.
///
/// # Errors
///
/// Returns `AllocError` if out of memory.
fn make_room(lists: &mut Vec<Vec<usize>>, place: usize) -> Result<(), AllocError>
    requires { place + 1 < 2 ^ 64 }
    ensures room { OnOk result (place < length lists.new.items) }
    ensures same { (one : ℕ) → group_in lists.new.items one ≡ group_in lists.old.items one }
{
    let alloc = *lists.allocator();
    for _place in lists.len()..place + 1 {
        if lists.push(Vec::new(alloc)).is_err() {
            return Err(AllocError);
        }
    }
    Ok(())
}

/// Removes a number from a list.
fn remove(list: &mut Vec<usize>, number: usize)
    ensures { list.new.items ≡ filter (λ other. not (other == number)) list.old.items }
{
    list.retain(|other| *other != number);
}
