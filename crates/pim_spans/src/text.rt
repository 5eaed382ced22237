//! Spans in a buffer.

ghost use Rattle.std.specs.Prelude.{◌≡◌, ◌++◌, flat_map, IfOk, Some, ◌+◌};
ghost use Rattle.pim_base.specs.Lists.{numbers};
ghost use Rattle.pim_world.specs.Held.{world_of};
ghost use Rattle.pim_spans.specs.Kept.{kept_at, kept_of, all_text};
ghost use Rattle.pim_spans.specs.Words.{line_text, span_text};

use crate::kind::Kind;
use crate::span::Span;
use crate::track::Track;
use crate::tracks::Tracks;
use crate::window::Window;
use pim_rows::put_number;
use pim_waits::{MutexPlace, ThreadPlace};
use pim_world::World;
use std::alloc::AllocError;

/// Appends the spans of a kind, at so many places. Takes the world at the end.
///
/// # Errors
///
/// Returns `AllocError` if out of memory.
pub(crate) fn put_tracks(
    out: &mut Vec<u8>,
    world: &World,
    window: Window,
    kind: Kind,
    tracks: &Tracks,
    count: usize,
) -> Result<(), AllocError>
    ensures { IfOk result (λ _. let w = world_of world.now in
        out.new.items ≡ out.old.items
        ++ flat_map (λ n. all_text window w kind n (kept_at tracks.now.tracks.items n))
        (numbers count)) }
{
    for index in 0..count {
        put_place(out, world, window, kind, tracks, index)?;
    }
    Ok(())
}

/// Appends the spans at one place, which is one more than the index.
fn put_place(
    out: &mut Vec<u8>,
    world: &World,
    window: Window,
    kind: Kind,
    tracks: &Tracks,
    index: usize,
) -> Result<(), AllocError>
    ensures { IfOk result (λ _. out.new.items ≡ out.old.items
        ++ all_text window (world_of world.now) kind (index + 1)
        (kept_at tracks.now.tracks.items (index + 1))) }
{
    match tracks.tracks.get(index) {
        Some(track) => put_track(out, world, window, kind, index + 1, track),
        None => Ok(()),
    }
}

/// Appends the spans of a track.
fn put_track(
    out: &mut Vec<u8>,
    world: &World,
    window: Window,
    kind: Kind,
    place: usize,
    track: &Track,
) -> Result<(), AllocError>
    ensures { IfOk result (λ _. out.new.items ≡ out.old.items
        ++ all_text window (world_of world.now) kind place (kept_of (Some track.now))) }
{
    for span in &track.spans {
        put_span(out, world, kind, place, span)?;
    }
    match track.last(world.clock(), window) {
        Some(span) => put_span(out, world, kind, place, &span),
        None => Ok(()),
    }
}

/// Appends a span.
fn put_span(
    out: &mut Vec<u8>,
    world: &World,
    kind: Kind,
    place: usize,
    span: &Span,
) -> Result<(), AllocError>
    ensures { IfOk result (λ _. out.new.items ≡ out.old.items
        ++ span_text (world_of world.now) kind place span.now) }
{
    let (from, until) = (span.from, span.until);
    match kind {
        Kind::Gets => {
            let thread = world.thread_number(ThreadPlace(place));
            put_line(out, kind, &[thread, span.said.0, span.said.1, from, until])
        }
        Kind::Owns => {
            let thread = world.thread_number(ThreadPlace(span.said.0 as usize));
            let mutex = world.mutex_number(MutexPlace(place));
            put_line(out, kind, &[thread, mutex, span.line, from, until])
        }
        Kind::Waits => {
            let thread = world.thread_number(ThreadPlace(place));
            put_line(out, kind, &[thread, span.said.0, span.line, from, until])
        }
        Kind::Inverted | Kind::Stalled => {
            let said = span.said;
            put_line(out, kind, &[said.0, said.1, said.2, from, until])
        }
    }
}

/// Appends a word, and numbers.
fn put_line(out: &mut Vec<u8>, kind: Kind, numbers: &[u64]) -> Result<(), AllocError>
    ensures { IfOk result (λ _. out.new.items ≡ out.old.items ++ line_text kind numbers.now) }
{
    out.extend_from_slice(kind.text().as_bytes())?;
    for number in numbers {
        put_number(out, *number)?;
    }
    out.extend_from_slice(b"\n")
}
