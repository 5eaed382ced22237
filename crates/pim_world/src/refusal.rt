//! Why a line may not follow those before it.

/// Why a line may not follow those before it.
#[derive(Clone, Copy)]
pub enum Refusal {
    /// The recording has ended.
    Ended,
    /// A line before it declares its thread.
    ThreadAgain,
    /// There are more threads than a text may have.
    TooManyThreads,
    /// A line before it declares its mutex.
    MutexAgain,
    /// A line before it declares its object.
    ObjectAgain,
    /// No line before it declares its thread.
    NoThread,
    /// No line before it declares its mutex.
    NoMutex,
    /// No line before it declares its object.
    NoObject,
    /// No line before it declares the thread that ended the wait.
    NoEnder,
    /// Its thread waits for a mutex.
    Waiting,
    /// Its thread is blocked at an object.
    Blocked,
    /// Another thread owns its mutex.
    Owned,
    /// Its thread owns its mutex, and can't lock it again.
    NotRecursive,
    /// Its thread owns its mutex, and can lock it again.
    Recursive,
    /// Its thread doesn't wait for its mutex.
    NotWaiting,
    /// Its thread doesn't own its mutex.
    NotOwner,
    /// Its mutex has no ceiling.
    NoCeiling,
    /// Its thread isn't blocked at its object.
    NotBlocked,
    /// Its thread ends its own wait.
    OwnEnder,
    /// Its thread is on a CPU.
    OnCpu,
    /// Another thread is on its CPU.
    CpuTaken,
}

impl Refusal {
    /// Returns the reason in words.
    pub fn reason(self) -> &'static str {
        match self {
            Refusal::Ended => "nothing follows the end",
            Refusal::ThreadAgain => "its thread is declared already",
            Refusal::TooManyThreads => "a text has at most 65536 threads",
            Refusal::MutexAgain => "its mutex is declared already",
            Refusal::ObjectAgain => "its object is declared already",
            Refusal::NoThread => "its thread isn't declared",
            Refusal::NoMutex => "its mutex isn't declared",
            Refusal::NoObject => "its object isn't declared",
            Refusal::NoEnder => "the thread that ended it isn't declared",
            Refusal::Waiting => "its thread waits for a mutex",
            Refusal::Blocked => "its thread is blocked",
            Refusal::Owned => "another thread owns its mutex",
            Refusal::NotRecursive => "its thread owns its mutex, which isn't recursive",
            Refusal::Recursive => "its thread owns its mutex, which is recursive",
            Refusal::NotWaiting => "its thread doesn't wait for its mutex",
            Refusal::NotOwner => "its thread doesn't own its mutex",
            Refusal::NoCeiling => "its mutex isn't a protect one",
            Refusal::NotBlocked => "its thread isn't blocked at its object",
            Refusal::OwnEnder => "its thread can't end its own wait",
            Refusal::OnCpu => "its thread is on a CPU",
            Refusal::CpuTaken => "another thread is on its CPU",
        }
    }
}
