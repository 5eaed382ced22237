//! The queues of the mutexes.

ghost use Rattle.std.specs.Prelude.{◌≡◌, ◌≤◌, ◌<◌, ◌+◌, ◌*◌, ℕ, length, replicate, [], true, false, IfOk, IfSome, IfNone, Some, slice_index_or, ◌^◌};
ghost use Rattle.std.specs.List.{list_any, find, AllByRecursion};
ghost use Rattle.std.specs.Option.{option_copied, option_map};
ghost use Rattle.pim_base.specs.Lists.{nth, insert_by, first_item};
ghost use Rattle.pim_base.specs.Queues.{precedes};
ghost use Rattle.pim_queue.specs.QueueView.{QueueView, with_waiters};
ghost use Rattle.pim_queue.specs.Waiters.{is_of, has_ticket, without, repositioned};
ghost use Rattle.pim_chain.specs.Rooms.{total, with_room, IsRoomy, can_lend, each_with};
ghost use Rattle.pim_chain.specs.Views.{view_in, queue_in, first_prio, put_queue};

use pim_base::{MutexNo, Prio, Waiter};
use pim_queue::Queue;
use std::alloc::{AllocError, Global};
use std::marker::Model;
use std::mem::swap;

/// Each of the first queues, as many as there are tasks, has room for this part of the tasks at least. With less, more of
/// them exchange their room.
const LEAST_PART: u16 = 32;

/// The queue of each mutex.
///
/// A task waits in one queue. So at most half of the tasks wait in the second longest queue, a third of them in the
/// next one, and so on: the queues have room for so many. A queue keeps its room until another one outgrows its own, and
/// exchanges it for this one. Only `new` and `try_clone` allocate.
#[derive(Drop)]
pub struct Queues {
    queues: Vec<Queue>,
    // Is in the place of a queue while that one is changed together with another one.
    spare: Queue,
    room: u16,
}

impl Model for Queues {
    ghost use Rattle.std.specs.Prelude.{List};
    ghost use Rattle.pim_queue.specs.QueueView.{QueueView};
    ghost use Rattle.pim_chain.specs.Rooms.{IsRoomy, each_with};

    ghost Value = { List QueueView };

    ghost view = { λ q. each_with q.room q.queues.items };

    ghost invariant = { λ q. IsRoomy q.room q.queues.items };
}

impl Queues {
    /// Makes this many empty queues. There is room for that many waiters, in whichever queues they wait.
    ///
    /// # Errors
    ///
    /// Returns `AllocError` if out of memory.
    pub fn new(alloc: Global, count: usize, room: u16) -> Result<Queues, AllocError>
        ensures { IfOk result (λ queues. queues ≡ replicate count (record { waiters = []; room = room })) }
    {
        let mut queues = Vec::with_capacity(alloc, count)?;
        for place in 0..count {
            queues.push(Queue::new(alloc, first_room(place, room))?)?;
        }
        let spare = Queue::new(alloc, 0)?;
        Ok(Queues {
            queues,
            spare,
            room,
        })
    }

    /// Makes equal queues.
    ///
    /// # Errors
    ///
    /// Returns `AllocError` if out of memory.
    pub fn try_clone(&self, alloc: Global) -> Result<Queues, AllocError>
        ensures { IfOk result (λ queues. queues ≡ self.now) }
    {
        let mut queues = Vec::with_capacity(alloc, self.queues.len())?;
        for queue in &self.queues {
            queues.push(queue.try_clone(alloc)?)?;
        }
        let spare = Queue::new(alloc, 0)?;
        Ok(Queues {
            queues,
            spare,
            room: self.room,
        })
    }

    /// Returns the queue of the mutex, `None` for an unknown one.
    pub fn get(&self, mutex: MutexNo) -> Option<&Queue>
        ensures { option_map (λ (q : QueueView). q.waiters) (option_copied result) ≡ option_map (λ (q : QueueView). q.waiters) (nth self.now mutex) }
    {
        queue_of(&self.queues, mutex)
    }

    /// Returns the first waiter for a known mutex, if a task waits.
    pub fn known_first(&self, mutex: MutexNo) -> Option<Waiter>
        requires least { 1 ≤ mutex }
        requires most { mutex ≤ length self.now }
        ensures { result ≡ first_item (queue_in self.now mutex) }
    {
        self.queues[mutex.get() as usize - 1].front()
    }

    /// Returns the level of the first waiter for a known mutex, 0 if no task waits.
    pub fn first_level(&self, mutex: MutexNo) -> u16
        requires least { 1 ≤ mutex }
        requires most { mutex ≤ length self.now }
        ensures { result ≡ first_prio (queue_in self.now mutex) }
    {
        self.known_first(mutex).map_or(0, |first| first.prio.get())
    }

    /// Puts the waiter in the queue of the mutex.
    #[inline(always)]
    pub fn insert(&mut self, mutex: MutexNo, waiter: Waiter)
        requires least { 1 ≤ mutex }
        requires most { mutex ≤ length self.old }
        requires room { total self.old < (view_in self.old mutex).room }
        requires task { list_any (is_of waiter.task) (queue_in self.old mutex) ≡ false }
        requires ticket { list_any (has_ticket waiter.ticket) (queue_in self.old mutex) ≡ false }
        ensures { self.new ≡ put_queue self.old mutex (insert_by precedes (queue_in self.old mutex) waiter) }
    {
        let place = mutex.get() as usize - 1;
        if self.queues[place].has_room() {
            self.queues[place].insert(waiter);
            return;
        }
        make_room(&mut self.queues, &mut self.spare, place);
        self.queues[place].insert(waiter);
    }

    /// Removes the waiter from the queue of the mutex, where it must wait.
    #[inline(always)]
    pub fn remove(&mut self, mutex: MutexNo, waiter: &Waiter)
        requires least { 1 ≤ mutex }
        requires most { mutex ≤ length self.old }
        requires waits { find (is_of waiter.now.task) (queue_in self.old mutex) ≡ Some waiter.now }
        ensures { self.new ≡ put_queue self.old mutex (without waiter.now.task (queue_in self.old mutex)) }
    {
        self.queues[mutex.get() as usize - 1].remove_waiter(waiter);
    }

    /// Gives the waiter, which must wait for the mutex, this priority, and moves it to its place in the queue.
    pub fn reposition(&mut self, mutex: MutexNo, waiter: &Waiter, prio: Prio)
        requires least { 1 ≤ mutex }
        requires most { mutex ≤ length self.old }
        requires waits { find (is_of waiter.now.task) (queue_in self.old mutex) ≡ Some waiter.now }
        ensures { self.new ≡ put_queue self.old mutex (repositioned waiter.now.task prio (queue_in self.old mutex)) }
    {
        self.queues[mutex.get() as usize - 1].reposition_waiter(waiter, prio);
    }
}

/// Returns the queue of the mutex, `None` for an unknown one.
fn queue_of(queues: &[Queue], mutex: MutexNo) -> Option<&Queue>
    ensures { option_copied result ≡ nth queues.now mutex }
{
    let place = (mutex.get() as usize).checked_sub(1)?;
    queues.get(place)
}

/// Returns how many waiters the queue at this place has room for at first: as many as can wait in each queue up to this
/// one at the same time, or a few more.
fn first_room(place: usize, tasks: u16) -> u16
    requires { place + 1 < 2 ^ 64 }
    ensures { tasks < (result + 1) * (place + 1) }
{
    let share = tasks as usize / (place + 1);
    if share == 0 {
        return 0;
    }
    (share as u16).max(tasks / LEAST_PART)
}

/// Gives the queue at this place, which has no room, the room of one that needs it less: both keep their waiters, and
/// exchange their room.
#[cold]
#[inline(never)]
fn make_room(queues: &mut Vec<Queue>, spare: &mut Queue, place: usize)
    requires known { place < length queues.old.items }
    requires full { (d : QueueView) → (slice_index_or queues.old.items place d).room ≤ length (slice_index_or queues.old.items place d).waiters }
    requires roomy { IsRoomy (total queues.old.items + 1) queues.old.items }
    ensures len { length queues.new.items ≡ length queues.old.items }
    ensures waiters { (room : ℕ) → each_with room queues.new.items ≡ each_with room queues.old.items }
    ensures rooms { (n : ℕ) → with_room n queues.new.items ≡ with_room n queues.old.items }
    ensures free { (d : QueueView) → length (slice_index_or queues.new.items place d).waiters < (slice_index_or queues.new.items place d).room }
{
    let few = queues[place].room();
    let lender = lender(queues, place, few);
    swap(spare, &mut queues[lender]);
    spare.exchange_room(&mut queues[place]);
    swap(spare, &mut queues[lender]);
}

/// Returns a queue that can lend its room: the first behind this place, else the first one.
#[tactic(auto, using(crate::proofs::Rooms::lending))]
fn lender(queues: &[Queue], place: usize, few: usize) -> usize
    requires place { place < length queues.now }
    requires room { (d : QueueView) → (slice_index_or queues.now place d).room ≡ few }
    requires waiters { (d : QueueView) → length (slice_index_or queues.now place d).waiters ≡ few }
    requires roomy { IsRoomy (total queues.now + 1) queues.now }
    ensures known { result < length queues.now }
    ensures lends { (d : QueueView) → can_lend few (slice_index_or queues.now result d) ≡ true }
{
    if let Some(behind) = first_lender(&queues[place..], few) {
        return place + behind;
    }
    match first_lender(queues, few) {
        Some(first) => first,
        // More tasks than there are would wait.
        None => unreachable!(),
    }
}

/// Returns the first queue that can lend its room, if there is one.
fn first_lender(queues: &[Queue], few: usize) -> Option<usize>
    ensures found { IfSome result (λ k. (k < length queues.now) × ((d : QueueView) → can_lend few (slice_index_or queues.now k d) ≡ true)) }
    ensures none { IfNone result (AllByRecursion (λ q. can_lend few q ≡ false) queues.now) }
{
    for place in 0..queues.len() {
        if few < queues[place].room() && queues[place].as_slice().len() <= few {
            return Some(place);
        }
    }
    None
}
