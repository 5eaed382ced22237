//! Streams over the readers and writers of std. No contract names their contents.
ghost use Rattle.std.specs.Prelude.{◌≡◌, None};

use crate::ends::{Failed, Sink, Source};
use std::io::{ErrorKind, Read, Write};

/// A stream over a reader of std. It counts the reads that failed, and repeats a read that a signal interrupts.
#[derive(Drop)]
pub struct Input<R> {
    reader: R,
    failures: u64,
}

impl<R: Read> Input<R> {
    /// Returns a stream over the reader. No read of it has failed.
    pub fn new(reader: R) -> Input<R>
        ensures { ⟦<Input<R> as Source>⟧.failures result ≡ 0 }
    {
        Input {
            reader,
            failures: 0,
        }
    }
}

impl<R: Read> Source for Input<R> {
    ghost remaining = { λ _. None };

    ghost failures = { λ input. input.failures };

    fn read(&mut self, buffer: &mut [u8]) -> Result<usize, Failed> {
        // In practice there is no bound, but the loop needs one.
        for _attempt in 0..u64::MAX {
            match self.reader.read(buffer) {
                Ok(count) => return Ok(count),
                Err(error) if error.kind() == ErrorKind::Interrupted => {}
                Err(_) => break,
            }
        }
        self.failures = self.failures.saturating_add(1);
        Err(Failed)
    }
}

/// A stream over a writer of std. It counts the writes that failed, and those that took nothing. It repeats a write
/// that a signal interrupts.
#[derive(Drop)]
pub struct Output<W> {
    writer: W,
    failures: u64,
    stalls: u64,
}

impl<W: Write> Output<W> {
    /// Returns a stream over the writer. No write of it has failed or taken nothing.
    pub fn new(writer: W) -> Output<W>
        ensures { ⟦<Output<W> as Sink>⟧.told result ≡ record { contents = None; failures = 0; stalls = 0 } }
    {
        Output {
            writer,
            failures: 0,
            stalls: 0,
        }
    }
}

impl<W> Output<W> {
    /// Returns the writer.
    pub fn into_inner(self) -> W {
        let Output {
            writer,
            failures: _,
            stalls: _,
        } = self;
        writer
    }
}

impl<W: Write> Sink for Output<W> {
    ghost told = { λ output. record { contents = None; failures = output.failures; stalls = output.stalls } };

    fn write(&mut self, piece: &[u8]) -> Result<usize, Failed> {
        // In practice there is no bound, but the loop needs one.
        for _attempt in 0..u64::MAX {
            match self.writer.write(piece) {
                Ok(0) => {
                    self.stalls = self.stalls.saturating_add(1);
                    return Ok(0);
                }
                Ok(count) => return Ok(count),
                Err(error) if error.kind() == ErrorKind::Interrupted => {}
                Err(_) => break,
            }
        }
        self.failures = self.failures.saturating_add(1);
        Err(Failed)
    }
}
