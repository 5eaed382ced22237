//! What is kept of what lasts: how it began.

ghost use Rattle.std.specs.Prelude.{◌≡◌, ◌<◌, ℕ, IfOk, Some, None, length};
ghost use Rattle.pim_world.specs.After.{set};
ghost use Rattle.pim_rows.specs.Kept.{kept_of};

use std::alloc::{AllocError, Global};

/// By the place of a thread or a mutex, how something of it began that lasts.
#[derive(Drop)]
pub(crate) struct Starts<D: Copy> {
    /// Up to the last place of which anything began.
    starts: Vec<Option<D>>,
}

impl<D: Copy> Starts<D> {
    /// Returns that nothing lasts.
    pub(crate) fn new(alloc: Global) -> Starts<D>
        ensures { (n : ℕ) → kept_of result n ≡ None }
    {
        Starts {
            starts: Vec::new(alloc),
        }
    }

    /// Returns how what lasts began, of this place.
    pub(crate) fn get(&self, place: usize) -> Option<D>
        ensures { result ≡ kept_of self.now place }
    {
        self.starts.get(place).copied()?
    }

    /// It begins, of this place.
    ///
    /// # Errors
    ///
    /// Returns `AllocError` if out of memory.
    pub(crate) fn begin(&mut self, place: usize, start: D) -> Result<(), AllocError>
        ensures { IfOk result (λ _. kept_of self.new ≡ set place (Some start) (kept_of self.old)) }
    {
        self.grow(place)?;
        self.starts[place] = Some(start);
        Ok(())
    }

    /// Makes room for this place.
    fn grow(&mut self, place: usize) -> Result<(), AllocError>
        ensures same { IfOk result (λ _. (n : ℕ) → kept_of self.new n ≡ kept_of self.old n) }
        ensures room { IfOk result (λ _. place < length self.new.starts.items) }
    {
        let Some(end) = place.checked_add(1) else {
            return Err(AllocError);
        };
        for _place in self.starts.len()..end {
            self.starts.push(None)?;
        }
        Ok(())
    }
}
