//! Reading to the end of a reader, and writing all bytes of a buffer.

ghost use Rattle.std.specs.Prelude.{◌≡◌, ◌⊎◌, [], Some, IfOk, IfErr, IfSome, Err};
ghost use Rattle.pim_page.specs.Ends.{Happened, ReadsAll};
ghost use Rattle.pim_findings.specs.Writing.{Writes};

use crate::fault::Fault;
use pim_page::{Sink, Source};
use std::alloc::Global;

/// How many bytes one read asks for.
const PIECE: usize = 16_384;

/// Reads all the bytes that are left.
pub(crate) fn read_all<R: Source>(alloc: Global, reader: &mut R) -> Result<Vec<u8>, Fault>
    ensures ok { IfOk result (λ bytes. ReadsAll (R.remaining reader.old) bytes.items) }
    ensures end { IfOk result
        (λ _. IfSome (R.remaining reader.old) (λ _. R.remaining reader.new ≡ Some [])) }
    ensures read { result ≡ Err Fault.Read
        → Happened (R.failures reader.old) (R.failures reader.new) }
    ensures others { IfErr result (λ fault. (fault ≡ Fault.Read) ⊎ (fault ≡ Fault.Memory)) }
{
    let mut bytes = Vec::new(alloc);
    let mut piece = [0u8; PIECE];
    loop {
        let Ok(count) = reader.read(&mut piece) else {
            return Err(Fault::Read);
        };
        if count == 0 {
            return Ok(bytes);
        }
        bytes.extend_from_slice(&piece[..count])?;
    }
}

/// Writes all the bytes.
pub(crate) fn write_all<W: Sink>(writer: &mut W, bytes: &[u8]) -> Result<(), Fault>
    ensures { Writes (W.told writer.old) (W.told writer.new) bytes.now result }
{
    let mut rest = bytes;
    while !rest.is_empty() {
        match writer.write(rest) {
            Ok(count) if count > 0 => rest = &rest[count..],
            _ => return Err(Fault::Write),
        }
    }
    Ok(())
}
