//! Which line may follow.

ghost use Rattle.std.specs.Prelude.{◌≡◌, ℕ, IfSome, is_none};
ghost use Rattle.std.specs.Option.{option_map};
ghost use Rattle.pim_base.specs.State.{IsTask, IsMutex};
ghost use Rattle.pim_waits.specs.Model.{wait_for};
ghost use Rattle.pim_fact_lines.specs.declared.line.Line.TheVariants as lines;
ghost use Rattle.pim_fact_lines.specs.declared.line.What.TheVariants as whats;
ghost use Rattle.pim_world.specs.Worlds.{no_world, blocked_at, is_idle, awaits, is_recursive};
ghost use Rattle.pim_world.specs.Following.{may_follow, may_be_next, may_happen, may_lock, may_end};
ghost use Rattle.pim_world.specs.Following.{has_ceiling};
ghost use Rattle.pim_world.specs.Held.{world_of};

use crate::kernel::KernelEvents;
use crate::refusal::Refusal;
use crate::world::{MAX_THREADS, World};
use pim_fact_lines::{CpuNo, Ended, Line, MutexNo, ObjectNo, Protocol, ThreadNo, What};
use pim_waits::{MutexPlace, ThreadPlace, Waits, nth};
use std::alloc::Global;
use std::collections::HashMap;

impl World {
    /// Returns the world before the first line, in which nothing is declared.
    pub fn new(alloc: Global) -> World
        ensures { world_of result ≡ no_world }
    {
        World {
            threads: HashMap::new(alloc),
            mutexes: HashMap::new(alloc),
            threads_in_order: 0,
            mutexes_in_order: 0,
            objects: HashMap::new(alloc),
            thread_numbers: Vec::new(alloc),
            mutex_numbers: Vec::new(alloc),
            waits: Waits::new(alloc),
            recursive: Vec::new(alloc),
            blocked: Vec::new(alloc),
            kernel: KernelEvents::new(alloc),
            clock: 0,
            has_ended: false,
            touched: Vec::new(alloc),
        }
    }

    /// Returns the place of a thread, or `None` if it isn't declared.
    pub fn thread(&self, number: ThreadNo) -> Option<ThreadPlace>
        ensures place { result ≡ (world_of self.now).thread number }
        ensures known { IfSome result (IsTask (world_of self.now).state) }
    {
        let place = number.0 as usize;
        if 1 <= place && place <= self.threads_in_order {
            return Some(ThreadPlace(place));
        }
        self.threads.get(&number.0).copied()
    }

    /// Returns the place of a mutex, or `None` if it isn't declared.
    pub fn mutex(&self, number: MutexNo) -> Option<MutexPlace>
        ensures place { result ≡ (world_of self.now).mutex number }
        ensures known { IfSome result (IsMutex (world_of self.now).state) }
    {
        let place = number.0 as usize;
        if 1 <= place && place <= self.mutexes_in_order {
            return Some(MutexPlace(place));
        }
        self.mutexes.get(&number.0).copied()
    }

    /// Returns whether an object is declared.
    fn has_object(&self, number: ObjectNo) -> bool
        ensures { result ≡ (world_of self.now).object number }
    {
        self.objects.contains_key(&number.0)
    }

    /// Returns the object at which a thread is blocked, or `None` if it isn't.
    pub fn blocked(&self, thread: ThreadPlace) -> Option<ObjectNo>
        ensures { result ≡ blocked_at (world_of self.now) thread }
    {
        nth(&self.blocked, thread.0)?
    }

    /// Returns whether the owner of a mutex may lock it again.
    fn is_recursive(&self, mutex: MutexPlace) -> bool
        ensures { result ≡ is_recursive (world_of self.now) mutex }
    {
        nth(&self.recursive, mutex.0).unwrap_or(false)
    }

    /// Returns why a line may not follow those so far, or `None` if it may.
    pub fn refusal(&self, line: &Line) -> Option<Refusal>
        ensures { is_none result ≡ may_follow (world_of self.now) line.now }
    {
        if self.has_ended {
            return Some(Refusal::Ended);
        }
        match line {
            Line::Thread(number, _) => self.refusal_of_thread(*number),
            Line::Mutex { number, .. } => match self.mutex(*number) {
                Some(_) => Some(Refusal::MutexAgain),
                None => None,
            },
            Line::Object(number) => {
                if self.has_object(*number) {
                    Some(Refusal::ObjectAgain)
                } else {
                    None
                }
            }
            Line::Fact { thread, what, .. } => match self.thread(*thread) {
                Some(place) => self.refusal_of(place, what),
                None => Some(Refusal::NoThread),
            },
            Line::Unseen | Line::Lost { .. } | Line::End { .. } => None,
        }
    }

    /// Returns why a thread may not be declared.
    fn refusal_of_thread(&self, number: ThreadNo) -> Option<Refusal>
        ensures { (level : ℕ)
            → is_none result ≡ may_be_next (world_of self.now) (lines.Thread number level) }
    {
        if self.thread(number).is_some() {
            Some(Refusal::ThreadAgain)
        } else if self.thread_numbers.len() >= MAX_THREADS {
            Some(Refusal::TooManyThreads)
        } else {
            None
        }
    }

    /// Returns why this can't happen to a thread.
    fn refusal_of(&self, thread: ThreadPlace, what: &What) -> Option<Refusal>
        ensures { is_none result ≡ may_happen (world_of self.now) thread what.now }
    {
        match what {
            What::Granted(mutex) => self.refusal_to_grant(thread, *mutex),
            What::Took(mutex) => self.refusal_to_take(thread, *mutex),
            What::Waits(mutex) => self.refusal_to_wait(thread, *mutex),
            What::GaveUp(mutex) => self.refusal_to_give_up(thread, *mutex),
            What::Released(mutex) => self.refusal_to_release(thread, *mutex),
            What::Ceiling(mutex, _) => self.refusal_of_ceiling(*mutex),
            What::Blocks(object) => self.refusal_to_block(thread, *object),
            What::Resumes(object, ended) => self.refusal_to_resume(thread, *object, *ended),
            What::On(cpu) => self.refusal_to_go_on(thread, *cpu),
            What::Priority(_) | What::Runs(_) | What::OffReady | What::OffAsleep => None,
        }
    }

    /// Returns whether a thread waits for a mutex.
    fn awaits(&self, thread: ThreadPlace, mutex: MutexPlace) -> bool
        ensures { result ≡ awaits (world_of self.now) thread mutex }
    {
        match self.waits.awaited(thread) {
            Some(awaited) => awaited.0 == mutex.0,
            None => false,
        }
    }

    /// Returns why a thread isn't idle, or `None` if it is.
    fn refusal_of_idle(&self, thread: ThreadPlace) -> Option<Refusal>
        ensures { is_none result ≡ is_idle (world_of self.now) thread }
    {
        if self.waits.awaited(thread).is_some() {
            Some(Refusal::Waiting)
        } else if self.blocked(thread).is_some() {
            Some(Refusal::Blocked)
        } else {
            None
        }
    }

    /// Returns why a thread can't lock a mutex now, whatever it does itself.
    fn refusal_to_lock(&self, thread: ThreadPlace, mutex: MutexPlace) -> Option<Refusal>
        ensures { is_none result ≡ may_lock (world_of self.now) thread mutex }
    {
        let Some(owner) = self.waits.owner(mutex) else {
            return None;
        };
        if owner.0 != thread.0 {
            return Some(Refusal::Owned);
        }
        if self.is_recursive(mutex) {
            None
        } else {
            Some(Refusal::NotRecursive)
        }
    }

    fn refusal_to_grant(&self, thread: ThreadPlace, mutex: MutexNo) -> Option<Refusal>
        ensures { is_none result ≡ may_happen (world_of self.now) thread (whats.Granted mutex) }
    {
        let Some(mutex) = self.mutex(mutex) else {
            return Some(Refusal::NoMutex);
        };
        if self.awaits(thread, mutex) {
            return self.refusal_to_lock(thread, mutex);
        }
        match self.refusal_of_idle(thread) {
            None => self.refusal_to_lock(thread, mutex),
            why => why,
        }
    }

    fn refusal_to_take(&self, thread: ThreadPlace, mutex: MutexNo) -> Option<Refusal>
        ensures { is_none result ≡ may_happen (world_of self.now) thread (whats.Took mutex) }
    {
        let Some(mutex) = self.mutex(mutex) else {
            return Some(Refusal::NoMutex);
        };
        match self.refusal_of_idle(thread) {
            None => self.refusal_to_lock(thread, mutex),
            why => why,
        }
    }

    fn refusal_to_wait(&self, thread: ThreadPlace, mutex: MutexNo) -> Option<Refusal>
        ensures { is_none result ≡ may_happen (world_of self.now) thread (whats.Waits mutex) }
    {
        let Some(mutex) = self.mutex(mutex) else {
            return Some(Refusal::NoMutex);
        };
        if let Some(why) = self.refusal_of_idle(thread) {
            return Some(why);
        }
        match self.waits.owner(mutex) {
            Some(owner) if owner.0 == thread.0 && self.is_recursive(mutex) => Some(
                Refusal::Recursive,
            ),
            _ => None,
        }
    }

    fn refusal_to_give_up(&self, thread: ThreadPlace, mutex: MutexNo) -> Option<Refusal>
        ensures { is_none result ≡ may_happen (world_of self.now) thread (whats.GaveUp mutex) }
    {
        match self.mutex(mutex) {
            None => Some(Refusal::NoMutex),
            Some(mutex) if self.awaits(thread, mutex) => None,
            Some(_) => Some(Refusal::NotWaiting),
        }
    }

    fn refusal_to_release(&self, thread: ThreadPlace, mutex: MutexNo) -> Option<Refusal>
        ensures { is_none result ≡ may_happen (world_of self.now) thread (whats.Released mutex) }
    {
        let Some(mutex) = self.mutex(mutex) else {
            return Some(Refusal::NoMutex);
        };
        if let Some(why) = self.refusal_of_idle(thread) {
            return Some(why);
        }
        match self.waits.owner(mutex) {
            Some(owner) if owner.0 == thread.0 => None,
            _ => Some(Refusal::NotOwner),
        }
    }

    fn refusal_of_ceiling(&self, mutex: MutexNo) -> Option<Refusal>
        ensures { (t level : ℕ)
            → is_none result ≡ may_happen (world_of self.now) t (whats.Ceiling mutex level) }
    {
        let Some(mutex) = self.mutex(mutex) else {
            return Some(Refusal::NoMutex);
        };
        match self.waits.protocol(mutex) {
            Some(Protocol::Protect(_)) => None,
            _ => Some(Refusal::NoCeiling),
        }
    }

    fn refusal_to_block(&self, thread: ThreadPlace, object: ObjectNo) -> Option<Refusal>
        ensures { is_none result ≡ may_happen (world_of self.now) thread (whats.Blocks object) }
    {
        if self.has_object(object) {
            self.refusal_of_idle(thread)
        } else {
            Some(Refusal::NoObject)
        }
    }

    fn refusal_to_resume(
        &self,
        thread: ThreadPlace,
        object: ObjectNo,
        ended: Ended,
    ) -> Option<Refusal>
        ensures { is_none result
            ≡ may_happen (world_of self.now) thread (whats.Resumes object ended) }
    {
        if !self.has_object(object) {
            return Some(Refusal::NoObject);
        }
        if let Ended::By(ender) = ended {
            if self.thread(ender).is_none() {
                return Some(Refusal::NoEnder);
            }
        }
        match self.blocked(thread) {
            Some(other) if other.0 == object.0 => self.refusal_to_end(thread, ended),
            _ => Some(Refusal::NotBlocked),
        }
    }

    /// Returns why a thread's wait at an object can't have ended so.
    fn refusal_to_end(&self, thread: ThreadPlace, ended: Ended) -> Option<Refusal>
        ensures { is_none result ≡ may_end (world_of self.now) thread ended }
    {
        let Ended::By(ender) = ended else {
            return None;
        };
        match self.thread(ender) {
            Some(ender) if ender.0 == thread.0 => Some(Refusal::OwnEnder),
            Some(_) => None,
            None => Some(Refusal::NoEnder),
        }
    }

    fn refusal_to_go_on(&self, thread: ThreadPlace, cpu: CpuNo) -> Option<Refusal>
        ensures { is_none result ≡ may_happen (world_of self.now) thread (whats.On cpu) }
    {
        if self.kernel.is_on(thread) {
            Some(Refusal::OnCpu)
        } else if self.kernel.on(cpu).is_some() {
            Some(Refusal::CpuTaken)
        } else {
            None
        }
    }
}
