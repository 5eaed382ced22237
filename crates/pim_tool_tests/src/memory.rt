//! Streams in memory: the bytes that a call moves, and what was written.

use pim_page::{Failed, MemoryReader, MemoryWriter, Sink, Source, Trouble};
use std::alloc::Global;

/// How many bytes a call moves at most, and how many of six it reads and writes then.
const MOVED: &[(usize, usize, usize)] = &[(0, 1, 0), (1, 1, 1), (3, 3, 3), (9, 6, 6)];

/// Returns how many of six bytes are read by one call, and written by one.
fn moved(alloc: Global, most: usize) -> [Result<usize, Failed>; 2] {
    let mut reader = MemoryReader::piecewise(b"pim 1\n", most, 0);
    let mut writer = MemoryWriter::piecewise(alloc, most, Trouble::Fails, 0);
    [reader.read(&mut [0; 8]), writer.write(b"pim 1\n")]
}

#[test]
fn stream_moves_so_many_bytes_a_call(rt: HostRuntime) {
    for (most, read, written) in MOVED {
        assert!(rt;
            moved(rt.alloc(), *most) == [Ok(*read), Ok(*written)],
            "{most}"
        );
    }
}

/// Returns the answers of three reads of at most four of six bytes.
fn three_reads(mut reader: MemoryReader<'static>) -> [Result<usize, Failed>; 3] {
    let mut buffer = [0; 4];
    [
        reader.read(&mut buffer),
        reader.read(&mut buffer),
        reader.read(&mut buffer),
    ]
}

#[test]
fn reader_ends_after_its_bytes_and_fails_at_its_call(rt: HostRuntime) {
    let whole = MemoryReader::new(b"pim 1\n");
    assert!(rt; three_reads(whole) == [Ok(4), Ok(2), Ok(0)]);
    let failing = MemoryReader::piecewise(b"pim 1\n", 9, 2);
    assert!(rt; three_reads(failing) == [Ok(4), Err(Failed), Ok(2)]);
}

/// Returns the answers of three writes.
fn three_writes(writer: &mut MemoryWriter) -> [Result<usize, Failed>; 3] {
    [
        writer.write(b"pim "),
        writer.write(b"1"),
        writer.write(b"\n"),
    ]
}

#[test]
fn writer_has_the_bytes_of_its_pieces(rt: HostRuntime) {
    let mut writer = MemoryWriter::new(rt.alloc());
    let answers = three_writes(&mut writer);
    let is_text = writer.text() == Some("pim 1\n") && writer.bytes() == b"pim 1\n".as_slice();
    let calls = writer.calls();
    let is_kept = writer.into_bytes().as_slice() == b"pim 1\n".as_slice();
    assert!(rt; answers == [Ok(4), Ok(1), Ok(1)]);
    assert!(rt; is_text && is_kept && calls == 3);
}

#[test]
fn writer_fails_or_stalls_at_its_call(rt: HostRuntime) {
    let mut failing = MemoryWriter::piecewise(rt.alloc(), 9, Trouble::Fails, 2);
    let failed = three_writes(&mut failing);
    let mut stalling = MemoryWriter::piecewise(rt.alloc(), 9, Trouble::Stalls, 2);
    let stalled = three_writes(&mut stalling);
    let is_left_out = failing.text() == Some("pim \n") && stalling.text() == Some("pim \n");
    drop(failing);
    drop(stalling);
    assert!(rt; failed == [Ok(4), Err(Failed), Ok(1)]);
    assert!(rt; stalled == [Ok(4), Ok(0), Ok(1)]);
    assert!(rt; is_left_out);
}
