//! What a line changes.

ghost use Rattle.std.specs.Prelude.{◌≡◌, ◌≤◌, ℕ, false, [], length, IfOk, Option, Some};
ghost use Rattle.pim_base.specs.State.{IsTask};
ghost use Rattle.pim_waits.specs.Touched.{Touches};
ghost use Rattle.pim_world.specs.Touching.{declares};
ghost use Rattle.pim_world.specs.After.{after, after_thread, after_mutex, with_thread_number};
ghost use Rattle.pim_world.specs.After.{with_mutex_number, with_object, after_what, at_time};
ghost use Rattle.pim_world.specs.After.{locked, unlocked, with_state, set};
ghost use Rattle.pim_world.specs.Known.{AreInOrder};
ghost use Rattle.pim_fact_lines.specs.declared.line.Line.TheVariants as lines;
ghost use Rattle.pim_world.specs.Held.{world_of, touched_of};

use crate::kernel::Off;
use crate::world::World;
use pim_fact_lines::{Level, Line, MutexNo, ObjectNo, Protocol, ThreadNo, What};
use pim_waits::{MutexPlace, ThreadPlace, put};
use std::alloc::{AllocError, Global};

impl World {
    /// Goes on by a line that may follow, and keeps which threads it touched.
    ///
    /// # Errors
    ///
    /// Returns `AllocError` if out of memory.
    #[tactic(auto, using(crate::proofs::Touching::touches_none))]
    pub fn go(&mut self, alloc: Global, line: &Line) -> Result<(), AllocError>
        ensures world { IfOk result (λ _. world_of self.new ≡ after (world_of self.old) line.now) }
        ensures touched { IfOk result (λ _. declares line.now ≡ false
            → Touches
            (world_of self.old).state (world_of self.new).state [] (touched_of self.new)) }
    {
        self.touched.clear();
        match line {
            Line::Thread(number, level) => self.add_thread(*number, *level),
            Line::Mutex {
                number,
                is_recursive,
                protocol,
            } => self.add_mutex(*number, *is_recursive, *protocol),
            Line::Object(number) => self.add_object(*number),
            Line::Unseen => Ok(()),
            Line::Fact { time, thread, what } => self.go_by_fact(*time, *thread, what),
            Line::Lost { time } => {
                self.lose(alloc, *time);
                Ok(())
            }
            Line::End { time } => {
                self.end(*time);
                Ok(())
            }
        }
    }

    #[tactic(auto, using(crate::proofs::Touching::touches_none))]
    fn go_by_fact(&mut self, time: u64, thread: ThreadNo, what: &What) -> Result<(), AllocError>
        ensures world { IfOk result
            (λ _. world_of self.new ≡ after (world_of self.old) (lines.Fact time thread what.now)) }
        ensures touched { IfOk result (λ _. Touches (world_of self.old).state
            (world_of self.new).state (touched_of self.old) (touched_of self.new)) }
    {
        let place = self.thread(thread);
        self.pass(time);
        match place {
            Some(place) => self.happen(place, what)?,
            None => {}
        }
        Ok(())
    }

    fn lose(&mut self, alloc: Global, time: u64)
        ensures world { world_of self.new ≡ after (world_of self.old) (lines.Lost time) }
        ensures touched { touched_of self.new ≡ touched_of self.old }
    {
        self.pass(time);
        self.kernel.forget(alloc);
    }

    fn end(&mut self, time: u64)
        ensures world { world_of self.new ≡ after (world_of self.old) (lines.End time) }
        ensures touched { touched_of self.new ≡ touched_of self.old }
    {
        self.pass(time);
        self.has_ended = true;
    }

    /// The clock goes on to a time, and never back.
    fn pass(&mut self, time: u64)
        ensures world { world_of self.new ≡ at_time time (world_of self.old) }
        ensures touched { touched_of self.new ≡ touched_of self.old }
    {
        if self.clock < time {
            self.clock = time;
        }
    }

    fn add_thread(&mut self, number: ThreadNo, level: Level) -> Result<(), AllocError>
        ensures { IfOk result
            (λ _. world_of self.new ≡ after_thread number level (world_of self.old)) }
    {
        self.waits.add_thread(level)?;
        if self.blocked.push(None).is_err() {
            return Err(AllocError);
        }
        self.kernel.add_thread()?;
        self.number_thread(number)?;
        Ok(())
    }

    /// Gives the thread that was added last its number.
    fn number_thread(&mut self, number: ThreadNo) -> Result<(), AllocError>
        requires { 1 ≤ length (world_of self.old).state.base }
        ensures { IfOk result
            (λ _. world_of self.new ≡ with_thread_number number (world_of self.old)) }
    {
        let place = ThreadPlace(self.waits.threads());
        if self.thread_numbers.push(number).is_err() {
            return Err(AllocError);
        }
        let last = last_in_order(self.threads_in_order, number.0 as usize, place.0);
        if self.threads.insert(number.0, place).is_err() {
            return Err(AllocError);
        }
        self.threads_in_order = last;
        Ok(())
    }

    fn add_mutex(
        &mut self,
        number: MutexNo,
        is_recursive: bool,
        protocol: Protocol,
    ) -> Result<(), AllocError>
        ensures { IfOk result (λ _.
            world_of self.new ≡ after_mutex number is_recursive protocol (world_of self.old)) }
    {
        self.waits.add_mutex(protocol)?;
        if self.recursive.push(is_recursive).is_err() {
            return Err(AllocError);
        }
        self.number_mutex(number)?;
        Ok(())
    }

    /// Gives the mutex that was added last its number.
    fn number_mutex(&mut self, number: MutexNo) -> Result<(), AllocError>
        requires { 1 ≤ length (world_of self.old).state.protocol }
        ensures { IfOk result
            (λ _. world_of self.new ≡ with_mutex_number number (world_of self.old)) }
    {
        let place = MutexPlace(self.waits.mutexes());
        if self.mutex_numbers.push(number).is_err() {
            return Err(AllocError);
        }
        let last = last_in_order(self.mutexes_in_order, number.0 as usize, place.0);
        if self.mutexes.insert(number.0, place).is_err() {
            return Err(AllocError);
        }
        self.mutexes_in_order = last;
        Ok(())
    }

    fn add_object(&mut self, number: ObjectNo) -> Result<(), AllocError>
        ensures world { IfOk result
            (λ _. world_of self.new ≡ with_object number (world_of self.old)) }
        ensures touched { touched_of self.new ≡ touched_of self.old }
    {
        match self.objects.insert(number.0, ()) {
            Ok(_) => Ok(()),
            Err(_) => Err(AllocError),
        }
    }

    /// This happens to a thread.
    #[tactic(auto, using(crate::proofs::Touching::touches_none))]
    fn happen(&mut self, thread: ThreadPlace, what: &What) -> Result<(), AllocError>
        requires { IsTask (world_of self.old).state thread }
        ensures world { IfOk result
            (λ _. world_of self.new ≡ after_what what.now thread (world_of self.old)) }
        ensures touched { IfOk result (λ _. Touches (world_of self.old).state
            (world_of self.new).state (touched_of self.old) (touched_of self.new)) }
    {
        match what {
            What::Granted(number) => {
                if let Some(mutex) = self.mutex(*number) {
                    self.waits.put_awaited(thread, None, &mut self.touched)?;
                    self.lock(thread, mutex)?;
                }
            }
            What::Took(number) => {
                if let Some(mutex) = self.mutex(*number) {
                    self.lock(thread, mutex)?;
                }
            }
            What::Waits(number) => {
                if let Some(mutex) = self.mutex(*number) {
                    self.waits
                        .put_awaited(thread, Some(mutex), &mut self.touched)?;
                }
            }
            What::GaveUp(_) => self.waits.put_awaited(thread, None, &mut self.touched)?,
            What::Released(number) => {
                if let Some(mutex) = self.mutex(*number) {
                    self.unlock(mutex)?;
                }
            }
            What::Priority(level) => self.waits.put_level(thread, *level, &mut self.touched)?,
            What::Ceiling(number, level) => {
                if let Some(mutex) = self.mutex(*number) {
                    self.waits.put_ceiling(mutex, *level, &mut self.touched)?;
                }
            }
            What::Blocks(object) => put(&mut self.blocked, thread.0, Some(*object)),
            What::Resumes(_, _) => put(&mut self.blocked, thread.0, None),
            What::Runs(level) => self.kernel.run(thread, *level),
            What::On(cpu) => self.kernel.put_on(thread, *cpu)?,
            What::OffReady => self.kernel.put_off(thread, Off::Ready),
            What::OffAsleep => self.kernel.put_off(thread, Off::Asleep),
        }
        Ok(())
    }

    /// A thread locks a mutex, once more if it is owned.
    ///
    /// # Errors
    ///
    /// Returns `AllocError` if it was locked 2^64 - 1 times.
    fn lock(&mut self, thread: ThreadPlace, mutex: MutexPlace) -> Result<(), AllocError>
        requires { IsTask (world_of self.old).state thread }
        ensures world { IfOk result (λ _. let w = world_of self.old in
            world_of self.new ≡ with_state w (locked w.state thread mutex)) }
        ensures touched { IfOk result (λ _. Touches (world_of self.old).state
            (world_of self.new).state (touched_of self.old) (touched_of self.new)) }
    {
        if self.waits.owner(mutex).is_none() {
            self.waits
                .put_owner(mutex, Some(thread), &mut self.touched)?;
            return Ok(());
        }
        let count = self.waits.count(mutex);
        if count == u64::MAX {
            return Err(AllocError);
        }
        self.waits.put_count(mutex, count + 1);
        Ok(())
    }

    /// The owner of a mutex unlocks it once.
    fn unlock(&mut self, mutex: MutexPlace) -> Result<(), AllocError>
        ensures world { IfOk result (λ _. let w = world_of self.old in
            world_of self.new ≡ with_state w (unlocked w.state mutex)) }
        ensures touched { IfOk result (λ _. Touches (world_of self.old).state
            (world_of self.new).state (touched_of self.old) (touched_of self.new)) }
    {
        let count = self.waits.count(mutex);
        if count > 1 {
            self.waits.put_count(mutex, count - 1);
        } else {
            self.waits.put_owner(mutex, None, &mut self.touched)?;
        }
        Ok(())
    }
}

/// Returns up to which number the places are the numbers, after a number got a place.
fn last_in_order(last: usize, number: usize, place: usize) -> usize
    ensures { (places : ℕ → Option ℕ)
        → AreInOrder last places → AreInOrder result (set number (Some place) places) }
{
    if number <= last {
        return 0;
    }
    if number == place && place - 1 == last {
        return place;
    }
    last
}
