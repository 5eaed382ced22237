//! A window of time.

ghost use Rattle.std.specs.Prelude.{◌≡◌};
ghost use Rattle.pim_spans.specs.Spans.{cut};

use crate::span::Span;

/// The times from one to another, in nanoseconds.
#[derive(Clone, Copy)]
pub struct Window {
    pub from: u64,
    pub until: u64,
}

impl Window {
    /// Returns the part of a span that is in the window.
    pub(crate) fn cut(self, span: Span) -> Span
        ensures { result ≡ cut self span }
    {
        Span {
            said: span.said,
            line: span.line,
            from: span.from.max(self.from),
            until: span.until.min(self.until),
        }
    }
}
