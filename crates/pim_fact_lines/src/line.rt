//! The lines of a text of facts.

ghost use Rattle.std.specs.Prelude.{◌≡◌, ◌≤◌, SomeIff};

use std::marker::Model;

/// The highest number of a thread: one less than 32 bits have.
pub const MAX_THREAD: u64 = 4_294_967_294;

/// The highest number of a mutex or of another object. It has 19 digits.
pub const MAX_NUMBER: u64 = 9_999_999_999_999_999_999;

/// The highest level: SCHED_DEADLINE, or what else is above all priorities.
pub const MAX_LEVEL: u64 = 100;

/// The highest number of a CPU.
pub const MAX_CPU: u64 = 65_535;

/// The number of a thread, 1 to 4,294,967,294.
///
/// In contracts its value is the number itself.
#[derive(Clone, Copy, PartialEq, Eq)]
pub struct ThreadNo(pub u32);

impl Model for ThreadNo {
    ghost use Rattle.std.specs.Prelude.{ℕ};

    ghost Value = { ℕ };

    ghost view = { λ t. t.0 };

    ghost inverse = { λ n. record { 0 = n } };
}

/// The number of a mutex, 1 to 9,999,999,999,999,999,999. Mutexes and other objects are numbered
/// apart.
///
/// In contracts its value is the number itself.
#[derive(Clone, Copy, PartialEq, Eq)]
pub struct MutexNo(pub u64);

impl Model for MutexNo {
    ghost use Rattle.std.specs.Prelude.{ℕ};

    ghost Value = { ℕ };

    ghost view = { λ m. m.0 };

    ghost inverse = { λ n. record { 0 = n } };
}

/// The number of something else for which threads wait, 1 to 9,999,999,999,999,999,999.
///
/// In contracts its value is the number itself.
#[derive(Clone, Copy, PartialEq, Eq)]
pub struct ObjectNo(pub u64);

impl Model for ObjectNo {
    ghost use Rattle.std.specs.Prelude.{ℕ};

    ghost Value = { ℕ };

    ghost view = { λ x. x.0 };

    ghost inverse = { λ n. record { 0 = n } };
}

/// The number of a CPU, 0 to 65,535.
///
/// In contracts its value is the number itself.
#[derive(Clone, Copy, PartialEq, Eq)]
pub struct CpuNo(pub u16);

impl Model for CpuNo {
    ghost use Rattle.std.specs.Prelude.{ℕ};

    ghost Value = { ℕ };

    ghost view = { λ c. c.0 };

    ghost inverse = { λ n. record { 0 = n } };
}

/// A level, 0 to 100; the higher is the more urgent. Levels 1 to 99 are the priorities of
/// SCHED_FIFO, 0 is below these, and 100 is above them.
///
/// In contracts its value is the number itself.
#[derive(Clone, Copy, PartialEq, Eq, PartialOrd, Ord)]
pub struct Level {
    level: u8,
}

impl Model for Level {
    ghost use Rattle.std.specs.Prelude.{ℕ, ◌≤◌};

    ghost Value = { ℕ };

    ghost view = { λ l. l.level };

    ghost invariant = { λ l. l.level ≤ 100 };

    ghost inverse = { λ n. record { level = n } };
}

impl Level {
    /// Returns this level, or `None` if it is above 100.
    pub fn new(level: u64) -> Option<Level>
        ensures { SomeIff result (level ≤ 100) level }
    {
        if level <= MAX_LEVEL {
            Some(Level { level: level as u8 })
        } else {
            None
        }
    }

    /// Returns the level as a number, 0 to 100.
    pub fn get(self) -> u8
        ensures value { result ≡ self }
        ensures most { result ≤ 100 }
    {
        self.level
    }
}

/// What owning a mutex means for the owner's level (POSIX.1-2017, `pthread_mutexattr_getprotocol`).
#[derive(Clone, Copy)]
pub enum Protocol {
    /// PTHREAD_PRIO_NONE: nothing.
    None,
    /// PTHREAD_PRIO_INHERIT: it gets at least what each waiter gets.
    Inherit,
    /// PTHREAD_PRIO_PROTECT: it gets at least this ceiling.
    Protect(Level),
}

/// How a wait at an object ended.
#[derive(Clone, Copy)]
pub enum Ended {
    /// Nobody knows.
    Unknown,
    /// This thread ended it.
    By(ThreadNo),
    /// Its time was out.
    TimedOut,
    /// It was refused, interrupted or cancelled.
    Failed,
}

/// What happened to a thread.
#[derive(Clone, Copy)]
pub enum What {
    /// It owns the mutex, or has locked it once more.
    Granted(MutexNo),
    /// The same, by a call that would not have waited.
    Took(MutexNo),
    /// It waits for the mutex.
    Waits(MutexNo),
    /// It no longer waits for the mutex, and wasn't granted it.
    GaveUp(MutexNo),
    /// It unlocked the mutex once.
    Released(MutexNo),
    /// It has this level from now on.
    Priority(Level),
    /// It gave the mutex this ceiling.
    Ceiling(MutexNo, Level),
    /// It waits for an object that isn't a mutex.
    Blocks(ObjectNo),
    /// It no longer waits for the object.
    Resumes(ObjectNo, Ended),
    /// The kernel runs it at this level from now on.
    Runs(Level),
    /// It is on this CPU from now on.
    On(CpuNo),
    /// It is on no CPU from now on, though it could run.
    OffReady,
    /// It is on no CPU from now on, and couldn't run.
    OffAsleep,
}

/// A line after the first, without its name or its places.
#[derive(Clone, Copy)]
pub enum Line {
    /// There is a thread, which has this level.
    Thread(ThreadNo, Level),
    /// There is a mutex, which is free.
    Mutex {
        number: MutexNo,
        is_recursive: bool,
        protocol: Protocol,
    },
    /// There is something else for which threads wait.
    Object(ObjectNo),
    /// The recorder couldn't see something.
    Unseen,
    /// Something happened to a thread at this time, in nanoseconds.
    Fact {
        time: u64,
        thread: ThreadNo,
        what: What,
    },
    /// Events are missing after this time.
    Lost {
        time: u64,
    },
    /// The recording ended.
    End {
        time: u64,
    },
}
