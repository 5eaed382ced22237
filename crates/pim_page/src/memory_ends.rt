//! Streams in memory. The contracts name their contents. They may pass bytes piece by piece, or fail at a call.
ghost use Rattle.std.specs.Prelude.{◌≡◌, Some, []};

use crate::ends::{Failed, Sink, Source};
use std::alloc::Global;

/// A reader over bytes.
#[derive(Drop)]
pub struct MemoryReader<'a> {
    left: &'a [u8],
    /// The most bytes that a call reads; 0 counts as 1.
    most: usize,
    /// The number of the call that fails, counted from 1, or 0 if none does.
    fails_at: u64,
    calls: u64,
    failures: u64,
}

impl<'a> MemoryReader<'a> {
    /// Returns a reader that never fails. Each call reads as many bytes as are asked for.
    pub fn new(bytes: &'a [u8]) -> MemoryReader<'a>
        ensures remaining { ⟦<MemoryReader<'static> as Source>⟧.remaining result ≡ Some bytes.now }
        ensures failures { ⟦<MemoryReader<'static> as Source>⟧.failures result ≡ 0 }
    {
        MemoryReader::piecewise(bytes, usize::MAX, 0)
    }

    /// Returns a reader that reads at most `most` bytes a call; 0 counts as 1. Call number `fails_at`, counted from 1,
    /// fails. No call fails if that is 0.
    pub fn piecewise(bytes: &'a [u8], most: usize, fails_at: u64) -> MemoryReader<'a>
        ensures remaining { ⟦<MemoryReader<'static> as Source>⟧.remaining result ≡ Some bytes.now }
        ensures failures { ⟦<MemoryReader<'static> as Source>⟧.failures result ≡ 0 }
    {
        MemoryReader {
            left: bytes,
            most,
            fails_at,
            calls: 0,
            failures: 0,
        }
    }
}

impl Source for MemoryReader<'_> {
    ghost remaining = { λ reader. Some reader.left.now };

    ghost failures = { λ reader. reader.failures };

    fn read(&mut self, buffer: &mut [u8]) -> Result<usize, Failed> {
        self.calls = self.calls.saturating_add(1);
        if self.calls == self.fails_at {
            self.failures = self.failures.saturating_add(1);
            return Err(Failed);
        }
        let count = self.left.len().min(buffer.len()).min(self.most.max(1));
        let (front, rest) = self.left.split_at(count);
        buffer[..count].copy_from_slice(front);
        self.left = rest;
        Ok(count)
    }
}

/// What a writer does at the call that goes wrong.
#[derive(Clone, Copy, Debug, PartialEq, Eq)]
pub enum Trouble {
    /// The call fails.
    Fails,
    /// The call takes no byte.
    Stalls,
}

/// A writer into memory.
#[derive(Drop)]
pub struct MemoryWriter {
    bytes: Vec<u8>,
    /// The most bytes that a call takes.
    most: usize,
    trouble: Trouble,
    /// The number of the call that goes wrong, counted from 1, or 0 if none does.
    at: u64,
    calls: u64,
    failures: u64,
    stalls: u64,
}

impl MemoryWriter {
    /// Returns an empty writer that takes each piece whole. A write fails only if an allocation fails.
    pub fn new(alloc: Global) -> MemoryWriter
        ensures { ⟦<MemoryWriter as Sink>⟧.told result ≡ record { contents = Some []; failures = 0; stalls = 0 } }
    {
        MemoryWriter::piecewise(alloc, usize::MAX, Trouble::Fails, 0)
    }

    /// Returns an empty writer that takes at most `most` bytes a call. Call number `at`, counted from 1, goes wrong. No
    /// call does if that is 0.
    pub fn piecewise(alloc: Global, most: usize, trouble: Trouble, at: u64) -> MemoryWriter
        ensures { ⟦<MemoryWriter as Sink>⟧.told result ≡ record { contents = Some []; failures = 0; stalls = 0 } }
    {
        MemoryWriter {
            bytes: Vec::new(alloc),
            most,
            trouble,
            at,
            calls: 0,
            failures: 0,
            stalls: 0,
        }
    }

    /// Returns what was written.
    pub fn bytes(&self) -> &[u8]
        ensures { (⟦<MemoryWriter as Sink>⟧.told self.now).contents ≡ Some result.now }
    {
        self.bytes.as_slice()
    }

    /// Returns what was written, consuming the writer.
    pub fn into_bytes(self) -> Vec<u8>
        ensures { (⟦<MemoryWriter as Sink>⟧.told self).contents ≡ Some result.items }
    {
        let MemoryWriter { bytes, .. } = self;
        bytes
    }

    /// Returns the number of calls of `write`.
    pub fn calls(&self) -> u64 {
        self.calls
    }

    /// Returns what was written as text, or `None` if it is not UTF-8.
    pub fn text(&self) -> Option<&str> {
        std::str::from_utf8(self.bytes.as_slice()).ok()
    }
}

impl Sink for MemoryWriter {
    ghost told = { λ writer.
        record { contents = Some writer.bytes.items; failures = writer.failures; stalls = writer.stalls } };

    fn write(&mut self, piece: &[u8]) -> Result<usize, Failed> {
        self.calls = self.calls.saturating_add(1);
        let goes_wrong = self.calls == self.at;
        if goes_wrong && self.trouble == Trouble::Stalls {
            self.stalls = self.stalls.saturating_add(1);
            return Ok(0);
        }
        let count = piece.len().min(self.most);
        if goes_wrong || self.bytes.extend_from_slice(&piece[..count]).is_err() {
            self.failures = self.failures.saturating_add(1);
            return Err(Failed);
        }
        if count == 0 {
            self.stalls = self.stalls.saturating_add(1);
        }
        Ok(count)
    }
}
