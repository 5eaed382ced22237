//! The reasons why a line is invalid.

use thiserror::Error;

/// What version 2 of the text has and version 1 hasn't.
#[derive(Clone, Copy, Debug, PartialEq, Eq, Error)]
pub enum NewWord {
    #[error("inherit recursive")]
    Recursive,
    #[error("ceil")]
    Ceil,
    #[error("kept")]
    Kept,
    #[error("refused not-protect")]
    NotProtect,
    #[error("refused again")]
    Again,
}

/// Why a line is invalid. Its text is a sentence for a user.
#[derive(Clone, Copy, Debug, PartialEq, Eq, Error)]
pub enum Reason {
    /// The first line names no version.
    #[error("a text begins with 'pim 1' or 'pim 2'")]
    Version,
    /// The line is empty.
    #[error("an empty line; there are none")]
    EmptyLine,
    /// The line begins with '#'.
    #[error("a comment; there are none")]
    Comment,
    /// The line has a tab.
    #[error("a tab; words are one space apart")]
    Tab,
    /// The line has a carriage return.
    #[error("a carriage return; a line ends with a newline alone")]
    CarriageReturn,
    /// The line has this byte, which isn't printable ASCII.
    #[error("byte {0}; a line has printable ASCII characters alone")]
    OtherByte(u8),
    /// The line begins with a space.
    #[error("a space before the first word")]
    SpaceBefore,
    /// The line ends with a space.
    #[error("a space at the end of the line")]
    SpaceAfter,
    /// The line has two spaces, one after the other.
    #[error("two spaces; one is allowed between words")]
    TwoSpaces,
    /// The first word begins no line.
    #[error("a line begins with 'task', 'mutex' or a task's number")]
    FirstWord,
    /// This word, counted from 1, isn't a number.
    #[error("word {0} should be a number from 1 to 65535, in digits without leading zeros")]
    Number(u32),
    /// A task comes after a mutex or a step.
    #[error("tasks come before the mutexes and the steps")]
    LateTask,
    /// A mutex comes after a step.
    #[error("mutexes come before the steps")]
    LateMutex,
    /// There are 256 tasks before this one.
    #[error("a text has at most 256 tasks")]
    TooManyTasks,
    /// There are 256 mutexes before this one.
    #[error("a text has at most 256 mutexes")]
    TooManyMutexes,
    /// There are 65,536 steps before this one.
    #[error("a text has at most 65536 steps")]
    TooManySteps,
    /// The task should have this number.
    #[error("tasks are numbered 1, 2, ..: this one should be task {0}")]
    TaskNumber(u16),
    /// The mutex should have this number.
    #[error("mutexes are numbered 1, 2, ..: this one should be mutex {0}")]
    MutexNumber(u16),
    /// The base of a task isn't a priority.
    #[error("priorities are 1 to 99")]
    Priority,
    /// The ceiling of a mutex isn't a priority.
    #[error("ceilings are 1 to 99")]
    Ceiling,
    /// The text is of version 1, which hasn't this word.
    #[error("'{0}' needs 'pim 2' in line 1")]
    New(NewWord),
    /// A step of a script has a recorded reply.
    #[error("a script has no recorded replies")]
    Recorded,
    /// A step of a script is that of this task, which isn't declared.
    #[error("a script has steps of declared tasks alone, and task {0} isn't declared")]
    Undeclared(u16),
    /// The line of a task has another form.
    #[error("a task is 'task <n> <base>'")]
    Task,
    /// The line of a mutex has another form.
    #[error("a mutex is 'mutex <n> ..' and 'none', 'inherit', 'inherit recursive' or 'protect <ceiling>'")]
    Mutex,
    /// The line of a step has another form.
    #[error("a step is '<task> ..' and 'lock', 'try' or 'unlock <mutex>', 'release', 'cancel <task>', \
         'base <task> <priority>' or 'ceil <mutex> <ceiling>'")]
    Step,
    /// Something else follows a step than a reply.
    #[error("only ' = <reply>' may follow a step")]
    Extra,
    /// The recorded reply is none.
    #[error("a reply is 'granted', 'queued', 'freed', 'handed <task>', 'released <count>', 'withdrawn', 'set', \
         'kept' or 'refused <name>'")]
    Reply,
    /// None of the other reasons was found.
    #[error("it isn't a line of the format")]
    Other,
}
