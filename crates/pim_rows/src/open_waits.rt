//! All waits that last.

ghost use Rattle.std.specs.Prelude.{◌≡◌, false, ◌≢◌, ◌≤◌, ◌<◌, ◌+◌, ℕ, List, length, IfOk, Some};
ghost use Rattle.std.specs.Prelude.{None};
ghost use Rattle.pim_base.specs.Lists.{nth, contains};
ghost use Rattle.pim_fact_lines.specs.declared.line.Line.{Line};
ghost use Rattle.pim_world.specs.After.{after};
ghost use Rattle.pim_world.specs.Held.{world_of};
ghost use Rattle.pim_rows.specs.declared.open_wait.OpenWait.{OpenWait};
ghost use Rattle.pim_rows.specs.Moments.{Moment, now, first_moments, followed_by};
ghost use Rattle.pim_world.specs.Standing.{waits};
ghost use Rattle.pim_rows.specs.Found.{actor};
ghost use Rattle.pim_rows.specs.OpenWaits.{IsUntil};
ghost use Rattle.pim_rows.specs.AllOpen.{AreOpen, AreUntil, AreSame, AreCurrent, AreInverted};
ghost use Rattle.pim_rows.specs.AllOpen.{IsCalm, GoneOnAt, EndedAt, BegunAt, SameBut, open_at};
ghost use Rattle.pim_rows.specs.AllOpen.{ended_times};

use crate::open_wait::OpenWait;
use crate::tally::Tally;
use pim_waits::ThreadPlace;
use pim_world::{Standing, World};
use std::alloc::{AllocError, Global};

/// By the place of a thread, its wait that lasts.
#[derive(Drop)]
pub(crate) struct OpenWaits {
    pub(crate) opens: Vec<Option<OpenWait>>,
}

impl OpenWaits {
    /// Returns that no thread waits.
    pub(crate) fn new(alloc: Global) -> OpenWaits
        ensures { AreOpen result.opens.items first_moments }
    {
        OpenWaits {
            opens: Vec::new(alloc),
        }
    }

    /// Goes on by a line. Takes the world after it, its thread, whether that waited before, and the
    /// threads of which something else may hold. Returns for how long what held of its thread, if
    /// the line ended its wait.
    ///
    /// # Errors
    ///
    /// Returns `AllocError` if out of memory.
    pub(crate) fn follow(
        &mut self,
        alloc: Global,
        world: &World,
        thread: Option<ThreadPlace>,
        was: bool,
        affected: &[ThreadPlace],
    ) -> Result<Option<Tally>, AllocError>
        requires { AreUntil (world_of world.now).clock self.old.opens.items }
        ensures kept { IfOk result
            (λ _. (ms : List Moment) (l : Line) → world_of world.now ≡ after (now ms) l
            → thread ≡ actor (now ms) l → ((t : ℕ) → thread ≡ Some t → was ≡ waits t (now ms))
            → AreSame (now ms) (after (now ms) l) affected.now
            → AreOpen self.old.opens.items ms
            → AreOpen self.new.opens.items (followed_by ms l)) }
        ensures ended { IfOk result
            (λ times. (ms : List Moment) (l : Line) → world_of world.now ≡ after (now ms) l
            → thread ≡ actor (now ms) l → ((t : ℕ) → thread ≡ Some t → was ≡ waits t (now ms))
            → AreOpen self.old.opens.items ms
            → times ≡ ended_times thread ms l) }
    {
        let Some(thread) = thread else {
            self.refresh(world, affected)?;
            return Ok(None);
        };
        if world.waits().awaited(thread).is_none() {
            let ended = self.end(thread, world.clock())?;
            self.refresh(world, affected)?;
            return Ok(ended);
        }
        self.refresh(world, affected)?;
        if was {
            return Ok(None);
        }
        self.begin(alloc, world, thread)?;
        Ok(None)
    }

    /// Appends the threads that are inverted.
    ///
    /// # Errors
    ///
    /// Returns `AllocError` if out of memory.
    pub(crate) fn put_inverted(&self, threads: &mut Vec<ThreadPlace>) -> Result<(), AllocError>
        ensures { IfOk result (λ _. AreInverted threads.new.items self.now.opens.items) }
    {
        for index in 0..self.opens.len() {
            self.note(index, threads)?;
        }
        Ok(())
    }

    /// Appends the thread whose wait is at one place, if it is inverted.
    fn note(&self, index: usize, threads: &mut Vec<ThreadPlace>) -> Result<(), AllocError>
        requires { index < length self.now.opens.items }
        ensures kept { IfOk result (λ _.
            (t : ℕ) → contains threads.new.items t ≡ false → contains threads.old.items t ≡ false) }
        ensures here { IfOk result (λ _. contains threads.new.items (index + 1) ≡ false
            → IsCalm (nth self.now.opens.items (index + 1))) }
    {
        if !self.is_inverted(index) {
            return Ok(());
        }
        match threads.push(ThreadPlace(index + 1)) {
            Ok(()) => Ok(()),
            Err(_) => Err(AllocError),
        }
    }

    /// Returns whether the wait at one place is inverted.
    fn is_inverted(&self, index: usize) -> bool
        requires { index < length self.now.opens.items }
        ensures { result ≡ false → IsCalm (nth self.now.opens.items (index + 1)) }
    {
        match &self.opens[index] {
            Some(open) => open.is_inverted(),
            None => false,
        }
    }

    /// Keeps the wait of a thread, which waits since the line after which this is the world.
    fn begin(&mut self, alloc: Global, world: &World, thread: ThreadPlace) -> Result<(), AllocError>
        requires { 1 ≤ thread }
        ensures here { IfOk result
            (λ _. BegunAt (world_of world.now) thread (open_at self.new.opens.items thread)) }
        ensures others { IfOk result
            (λ _. SameBut thread self.old.opens.items self.new.opens.items) }
    {
        let open = OpenWait::new(alloc, Standing::of(world, thread), world.clock());
        self.grow(thread.0)?;
        self.opens[thread.0 - 1] = Some(open);
        Ok(())
    }

    /// Makes place for what is kept of as many threads.
    fn grow(&mut self, threads: usize) -> Result<(), AllocError>
        ensures same { IfOk result
            (λ _. (t : ℕ) → open_at self.new.opens.items t ≡ open_at self.old.opens.items t) }
        ensures len { IfOk result (λ _. threads ≤ length self.new.opens.items) }
    {
        for _thread in self.opens.len()..threads {
            self.opens.push(None)?;
        }
        Ok(())
    }

    /// Ends the wait that is kept of a thread, if one is, and returns for how long what held.
    fn end(&mut self, thread: ThreadPlace, clock: u64) -> Result<Option<Tally>, AllocError>
        requires { AreUntil clock self.old.opens.items }
        ensures times { IfOk result (EndedAt clock (open_at self.old.opens.items thread)) }
        ensures gone { IfOk result (λ _. open_at self.new.opens.items thread ≡ None) }
        ensures others { IfOk result
            (λ _. (t : ℕ) → t ≢ thread → nth self.new.opens.items t ≡ nth self.old.opens.items t) }
    {
        match self.take(thread.0) {
            Some(open) => Ok(Some(open.close(clock)?)),
            None => Ok(None),
        }
    }

    /// Takes out what is kept of the thread at a place.
    pub(crate) fn take(&mut self, place: usize) -> Option<OpenWait>
        ensures here { result ≡ open_at self.old.opens.items place }
        ensures gone { open_at self.new.opens.items place ≡ None }
        ensures others { (t : ℕ)
            → t ≢ place → nth self.new.opens.items t ≡ nth self.old.opens.items t }
    {
        if place == 0 || self.opens.len() < place {
            return None;
        }
        self.opens[place - 1].take()
    }

    /// Goes on by a line with the waits of threads of which something else may hold. Takes the
    /// world after it, in which each thread waits whose wait is kept.
    fn refresh(&mut self, world: &World, affected: &[ThreadPlace]) -> Result<(), AllocError>
        requires { AreUntil (world_of world.now).clock self.old.opens.items }
        ensures { IfOk result
            (λ _. AreCurrent (world_of world.now) affected.now self.old.opens.items
            → (t : ℕ)
            → GoneOnAt
            (world_of world.now) t (nth self.old.opens.items t) (nth self.new.opens.items t)) }
    {
        for thread in affected {
            self.refresh_at(world, *thread)?;
        }
        Ok(())
    }

    /// Goes on with the wait of a thread, if one is kept.
    fn refresh_at(&mut self, world: &World, thread: ThreadPlace) -> Result<(), AllocError>
        requires { (w : OpenWait) → nth self.old.opens.items thread ≡ Some (Some w)
            → IsUntil (world_of world.now).clock w }
        ensures here { IfOk result (λ _. GoneOnAt (world_of world.now) thread
            (nth self.old.opens.items thread) (nth self.new.opens.items thread)) }
        ensures others { IfOk result (λ _. (t : ℕ) → t ≢ thread
            → nth self.new.opens.items t ≡ nth self.old.opens.items t) }
        ensures len { length self.new.opens.items ≡ length self.old.opens.items }
    {
        if thread.0 == 0 || self.opens.len() < thread.0 {
            return Ok(());
        }
        self.refresh_in(world, thread.0 - 1)?;
        Ok(())
    }

    /// Goes on with the wait at one place.
    fn refresh_in(&mut self, world: &World, index: usize) -> Result<(), AllocError>
        requires within { index < length self.old.opens.items }
        requires until { (w : OpenWait) → nth self.old.opens.items (index + 1) ≡ Some (Some w)
            → IsUntil (world_of world.now).clock w }
        ensures here { IfOk result (λ _. GoneOnAt (world_of world.now) (index + 1)
            (nth self.old.opens.items (index + 1)) (nth self.new.opens.items (index + 1))) }
        ensures others { IfOk result (λ _. (t : ℕ) → t ≢ index + 1
            → nth self.new.opens.items t ≡ nth self.old.opens.items t) }
        ensures len { length self.new.opens.items ≡ length self.old.opens.items }
    {
        if let Some(open) = &mut self.opens[index] {
            let standing = Standing::of(world, ThreadPlace(index + 1));
            open.refresh(world.clock(), standing)?;
        }
        Ok(())
    }
}
