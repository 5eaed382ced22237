//! The kinds of spans.

ghost use Rattle.std.specs.Prelude.{◌≡◌};
ghost use Rattle.pim_spans.specs.Words.{word_text};

/// What holds during a span.
#[derive(Clone, Copy)]
pub enum Kind {
    /// A thread gets something, and has a level.
    Gets,
    /// A thread owns a mutex.
    Owns,
    /// A thread waits for a mutex.
    Waits,
    /// A thread that waits is inverted.
    Inverted,
    /// The runner of a thread that waits is blocked at an object.
    Stalled,
}

impl Kind {
    /// Returns the word with which a span of this kind begins.
    pub fn text(self) -> &'static str
        ensures { result.now ≡ word_text self }
    {
        match self {
            Kind::Gets => "gets",
            Kind::Owns => "owns",
            Kind::Waits => "waits",
            Kind::Inverted => "inverted",
            Kind::Stalled => "stalled",
        }
    }
}
