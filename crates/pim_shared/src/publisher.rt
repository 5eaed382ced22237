//! The writer of the versions, which publishes one entry at a time.

ghost use Rattle.std.specs.Prelude.{◌≡◌, ◌+◌, ◌^◌, ◌<◌, [], ◌∷◌, length, Some, IfOk, MatchResult};
ghost use Rattle.std.specs.Mem.{manually_drop_value};
ghost use Rattle.pim_base.specs.declared.steps.Step.{Step};
ghost use Rattle.pim_shared.specs.Publishers.{IsNew, MayPublish, HasPublished, state_of, unpublished, with_pending, all_published};
ghost use Rattle.pim_shared.specs.Rules.{unseen};
ghost use Rattle.pim_shared.specs.Versions.{last_of};

use crate::looker::Looker;
use crate::rule::{Begins, Publishes, TellsStart, VersionWriter};
use crate::version::Version;
use core::mem::replace_with;
use pim_base::{Entry, Step};
use pim_manager::Manager;
use std::alloc::{AllocError, Global};
use std::marker::Model;
use std::mem::ManuallyDrop;
use std::sync::Wait;

/// The writer of the versions. It isn't `Drop`: only `end` ends it, which waits for readers.
///
/// Its value in contracts is the start, the published list, the state after it, and the steps that are pending.
pub struct Publisher {
    writer: ManuallyDrop<VersionWriter>,
}

impl Model for Publisher {
    ghost use Rattle.std.specs.Mem.{manually_drop_value};
    ghost use Rattle.pim_shared.specs.Publishers.{Published, IsUpToDate, published_by, state_of};

    ghost Value = { Published };

    ghost view = { λ p. published_by (state_of (manually_drop_value p.writer)) };

    ghost invariant = { λ p. IsUpToDate (state_of (manually_drop_value p.writer)) };
}

impl Publisher {
    /// Returns a publisher that has published nothing yet, with places for `lookers` readers. Versions alternate between
    /// the two managers.
    pub(crate) fn new<R: Wait>(
        rt: &R,
        alloc: Global,
        first: Manager,
        second: Manager,
        lookers: u16,
    ) -> Result<Publisher, AllocError>
        requires { first ≡ second }
        ensures { IfOk result (λ publisher. publisher ≡ unpublished first) }
    {
        let readers = usize::from(lookers).max(1);
        let (first, second) = (Version::first(first), Version::first(second));
        let writer = VersionWriter::new(alloc, first, second, readers)?;
        Ok(Publisher {
            writer: kept(begun(writer, rt)),
        })
    }

    /// Returns a reader that has seen no entry.
    ///
    /// # Errors
    ///
    /// Returns `AllocError` if no place is left.
    pub(crate) fn looker(&mut self) -> Result<Looker, AllocError>
        ensures same { self.new ≡ self.old }
        ensures looker { IfOk result (λ looker. looker ≡ record { start = self.old.start; entries = [] }) }
    {
        let mut reader = self.writer.factory().reader()?;
        reader.learn::<TellsStart>(self.writer.tell::<TellsStart>());
        Ok(Looker::new(reader))
    }

    /// Appends a step for `publish`.
    ///
    /// # Errors
    ///
    /// Returns `AllocError` if out of memory.
    pub(crate) fn append(&mut self, step: Step) -> Result<(), AllocError>
        ensures { MatchResult result (λ _. self.new ≡ with_pending self.old step) (λ _. self.new ≡ self.old) }
    {
        // Taken apart, since the generated proof copies an operation only by itself.
        let Step { actor, op } = step;
        match self.writer.append(Step { actor, op }) {
            Ok(()) => Ok(()),
            Err(_step) => Err(AllocError),
        }
    }

    /// Publishes the pending step. It waits for readers that still use the version before the last one.
    pub(crate) fn publish<R: Wait>(&mut self, rt: &R)
        requires one { (step : Step) × (self.old.pending ≡ step ∷ []) }
        requires short { length self.old.entries + 1 < 2 ^ 64 }
        ensures { self.new ≡ all_published self.old }
    {
        replace_with(&mut self.writer, rt, published);
    }

    /// Returns the manager after the published list.
    pub(crate) fn manager(&self) -> &Manager
        ensures { result.now ≡ self.now.state }
    {
        &self.writer.published().manager
    }

    /// Returns the last entry of the published list, `None` if that is empty.
    pub(crate) fn last(&self) -> Option<Entry>
        ensures { result ≡ last_of self.now.entries }
    {
        self.writer.published().last
    }

    /// Ends the publishing, and returns the manager. It waits for readers in a read. Later reads find no version.
    pub(crate) fn end<R: Wait>(self, rt: &R) -> Manager
        ensures { result ≡ self.state }
    {
        let Publisher { writer } = self;
        let version = ManuallyDrop::into_inner(writer).take(rt);
        Box::into_inner(version).manager
    }
}

/// Returns the writer such that its owner's drop leaves it alone.
fn kept(writer: VersionWriter) -> ManuallyDrop<VersionWriter>
    ensures { manually_drop_value result ≡ writer }
{
    // Its owner ends it by `into_inner` and `take`.
    unsafe { ManuallyDrop::new_unchecked(writer) }
}

/// Publishes the pending step.
fn published<R: Wait>(
    writer: ManuallyDrop<VersionWriter>,
    rt: &R,
) -> (ManuallyDrop<VersionWriter>, ())
    requires { MayPublish (state_of (manually_drop_value writer)) }
    ensures { HasPublished (state_of (manually_drop_value writer)) (state_of (manually_drop_value result.0)) }
{
    let (writer, _always) = ManuallyDrop::into_inner(writer).publish_as::<Publishes, R>(rt);
    (kept(writer), ())
}

/// Makes the start known to a new writer. It publishes no step.
fn begun<R: Wait>(writer: VersionWriter, rt: &R) -> VersionWriter
    requires { IsNew (state_of writer) }
    ensures { state_of result ≡ record (state_of writer) { known = unseen (Some (state_of writer).version.manager) } }
{
    let (writer, _always) = writer.publish_as::<Begins, R>(rt);
    writer
}
