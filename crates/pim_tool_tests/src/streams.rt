//! Readers and writers of std behind `Input` and `Output`, which move a few bytes a call, and go wrong at the second one.

use pim_page::{Failed, Input, Output, Sink, Source};
use std::alloc::Global;
use std::io::{Error, ErrorKind, Read, Result as IoResult, Write};

/// The most bytes that a call moves.
const MOST: usize = 3;

/// What a stream does: its second call goes wrong so.
#[derive(Clone, Copy, Drop)]
struct Calls {
    kind: ErrorKind,
    made: u64,
}

impl Calls {
    fn new(kind: ErrorKind) -> Calls {
        Calls { kind, made: 0 }
    }

    /// Counts a call, and fails at the second.
    fn make(&mut self) -> IoResult<()> {
        self.made = self.made.saturating_add(1);
        if self.made == 2 {
            return Err(Error::from(self.kind));
        }
        Ok(())
    }
}

#[derive(Drop)]
struct Bytes<'a> {
    left: &'a [u8],
    calls: Calls,
}

impl Read for Bytes<'_> {
    fn read(&mut self, buffer: &mut [u8]) -> IoResult<usize> {
        self.calls.make()?;
        let count = self.left.len().min(buffer.len()).min(MOST);
        let (front, rest) = self.left.split_at(count);
        buffer[..count].copy_from_slice(front);
        self.left = rest;
        Ok(count)
    }
}

#[derive(Drop)]
struct Gathered {
    bytes: Vec<u8>,
    calls: Calls,
}

impl Write for Gathered {
    fn write(&mut self, piece: &[u8]) -> IoResult<usize> {
        self.calls.make()?;
        let count = piece.len().min(MOST);
        self.bytes.extend_from_slice(&piece[..count])?;
        Ok(count)
    }

    fn flush(&mut self) -> IoResult<()> {
        Ok(())
    }
}

/// Returns the answers of three reads of a stream that goes wrong so, and the bytes of the first two.
fn three_reads(kind: ErrorKind) -> ([Result<usize, Failed>; 3], [u8; 4], [u8; 4]) {
    let left = b"pim 1\n".as_slice();
    let calls = Calls::new(kind);
    let mut input = Input::new(Bytes { left, calls });
    let mut first = [0; 4];
    let mut second = [0; 4];
    let answers = [
        input.read(&mut first),
        input.read(&mut second),
        input.read(&mut [0; 4]),
    ];
    (answers, first, second)
}

/// Returns the answers of three writes to a stream that goes wrong so, and the bytes that were taken.
fn three_writes(alloc: Global, kind: ErrorKind) -> ([Result<usize, Failed>; 3], Vec<u8>) {
    let bytes = Vec::new(alloc);
    let calls = Calls::new(kind);
    let mut output = Output::new(Gathered { bytes, calls });
    let answers = [
        output.write(b"pim"),
        output.write(b" 1\n"),
        output.write(b""),
    ];
    (answers, output.into_inner().bytes)
}

#[test]
fn interrupted_calls_are_made_again(rt: HostRuntime) {
    let (answers, first, second) = three_reads(ErrorKind::Interrupted);
    assert!(rt; answers == [Ok(3), Ok(3), Ok(0)]);
    assert!(rt; &first == b"pim\0" && &second == b" 1\n\0");
    let (answers, taken) = three_writes(rt.alloc(), ErrorKind::Interrupted);
    let is_whole = taken.as_slice() == b"pim 1\n".as_slice();
    drop(taken);
    assert!(rt; is_whole && answers == [Ok(3), Ok(3), Ok(0)]);
}

/// Errors that are no interruption.
const KINDS: &[ErrorKind] = &[
    ErrorKind::Other,
    ErrorKind::WouldBlock,
    ErrorKind::UnexpectedEof,
];

#[test]
fn failed_call_is_no_end_and_no_success(rt: HostRuntime) {
    for kind in KINDS {
        let (answers, _first, _second) = three_reads(*kind);
        assert!(rt; answers == [Ok(3), Err(Failed), Ok(3)], "{kind:?}");
        let (answers, taken) = three_writes(rt.alloc(), *kind);
        let is_front = taken.as_slice() == b"pim".as_slice();
        drop(taken);
        assert!(rt;
            is_front && answers == [Ok(3), Err(Failed), Ok(0)],
            "{kind:?}"
        );
    }
}
