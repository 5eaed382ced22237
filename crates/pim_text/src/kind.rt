//! The two kinds of text.

/// What a text is to be.
#[derive(Clone, Copy, Debug, PartialEq, Eq)]
pub enum Kind {
    /// A trace: a reply may be recorded for any step.
    Trace,
    /// A script, which is to be run: no reply is recorded, and each actor is a declared task.
    Script,
}
