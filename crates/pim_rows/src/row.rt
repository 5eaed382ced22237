//! The words with which rows begin.

ghost use Rattle.std.specs.Prelude.{◌≡◌};
ghost use Rattle.pim_rows.specs.Rows.{word_text};

/// The word with which a row begins.
#[derive(Clone, Copy)]
pub enum Word {
    /// A wait for a mutex.
    Wait,
    /// For how long a wait was inverted, by mutex and runner.
    Inverted,
    /// For how long the runner of a wait was blocked, by object.
    Stalled,
    /// For how long another thread ran in place of the runner of a wait.
    Meanwhile,
    /// A wait at an object that isn't a mutex.
    Blocked,
    /// A thread that the kernel ran at another level than it got.
    Ran,
    /// The ownerships of a mutex by a thread at one level.
    Section,
    /// The requests of a thread for a mutex while it owned another.
    Nests,
    /// A cycle of waits at the end.
    Deadlock,
    /// The end of the text.
    End,
}

impl Word {
    /// Returns the word.
    pub fn text(self) -> &'static str
        ensures { result.now ≡ word_text self }
    {
        match self {
            Word::Wait => "wait",
            Word::Inverted => "inverted",
            Word::Stalled => "stalled",
            Word::Meanwhile => "meanwhile",
            Word::Blocked => "blocked",
            Word::Ran => "ran",
            Word::Section => "section",
            Word::Nests => "nests",
            Word::Deadlock => "deadlock",
            Word::End => "end",
        }
    }
}
