//! The spans of one thing.

ghost use Rattle.std.specs.Prelude.{◌≡◌, ◌∷◌, ◌++◌, List, Some, IfOk, [], None};
ghost use Rattle.std.specs.Option.{option_map};
ghost use Rattle.pim_rows.specs.Moments.{Moment};
ghost use Rattle.pim_spans.specs.Spans.{Holding, lasting, within};
ghost use Rattle.pim_spans.specs.Kept.{IsKept, IsEither, kept_of, list_of, start_at};

use crate::said::same;
use crate::span::{Span, Start};
use crate::window::Window;
use pim_world::Key;
use std::alloc::{AllocError, Global};

/// A line by its number, with the clock after it.
#[derive(Clone, Copy)]
pub(crate) struct Instant {
    pub(crate) line: u64,
    pub(crate) clock: u64,
}

/// What holds of a thread or a mutex, and the spans that ended.
#[derive(Drop)]
pub struct Track {
    pub(crate) lasts: Option<Start>,
    /// Those in the window.
    pub(crate) spans: Vec<Span>,
}

impl Track {
    /// Returns that nothing holds.
    pub(crate) fn new(alloc: Global) -> Track
        ensures { kept_of (Some result) ≡ kept_of None }
    {
        Track {
            lasts: None,
            spans: Vec::new(alloc),
        }
    }

    /// Goes on by a line, after which this holds.
    ///
    /// # Errors
    ///
    /// Returns `AllocError` if out of memory.
    pub(crate) fn note(
        &mut self,
        said: Option<Key>,
        at: Instant,
        window: Window,
    ) -> Result<(), AllocError>
        ensures { IfOk result (λ _. (f : Holding) (m : Moment) (ms : List Moment)
            → said ≡ f (m ∷ ms) → at.line ≡ m.number → at.clock ≡ m.world.clock
            → IsEither window f m ms (kept_of (Some self.old))
            → IsKept window f (m ∷ ms) (kept_of (Some self.new))) }
    {
        if same(said_of(self.lasts), said) {
            return Ok(());
        }
        self.end(at.clock, window)?;
        self.lasts = starting(said, at);
        Ok(())
    }

    /// Ends what holds, if something does.
    fn end(&mut self, clock: u64, window: Window) -> Result<(), AllocError>
        ensures { IfOk result (λ _.
            self.new.spans.items
            ≡ self.old.spans.items ++ within window (lasting clock self.old.lasts)) }
    {
        let Some(span) = visible(self.lasts, clock, window) else {
            return Ok(());
        };
        match self.spans.push(span) {
            Ok(()) => Ok(()),
            Err(_) => Err(AllocError),
        }
    }

    /// Returns the span in the window of what holds until now.
    pub(crate) fn last(&self, clock: u64, window: Window) -> Option<Span>
        ensures { list_of result ≡ within window (lasting clock self.now.lasts) }
    {
        visible(self.lasts, clock, window)
    }
}

/// Returns the span in the window of what holds until a time, if it takes some time.
fn visible(lasts: Option<Start>, clock: u64, window: Window) -> Option<Span>
    ensures { list_of result ≡ within window (lasting clock lasts) }
{
    let start = lasts?;
    let span = window.cut(Span {
        said: start.said,
        line: start.line,
        from: start.from,
        until: clock,
    });
    if span.from < span.until {
        Some(span)
    } else {
        None
    }
}

/// Returns what holds.
fn said_of(lasts: Option<Start>) -> Option<Key>
    ensures { result ≡ option_map (λ s. s.said) lasts }
{
    match lasts {
        Some(start) => Some(start.said),
        None => None,
    }
}

/// Returns what holds since a line.
fn starting(said: Option<Key>, at: Instant) -> Option<Start>
    ensures { result ≡ start_at at.line at.clock said }
{
    match said {
        Some(said) => Some(Start {
            said,
            line: at.line,
            from: at.clock,
        }),
        None => None,
    }
}
