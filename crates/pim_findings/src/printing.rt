//! From a text of facts to its rows.

ghost use Rattle.std.specs.Prelude.{◌≡◌, ℕ, [], Some, IfOk, IfSome, Err};
ghost use Rattle.pim_fact_lines.specs.Texts.{lines_of};
ghost use Rattle.pim_world.specs.declared.fault.Why.{Why};
ghost use Rattle.pim_world.specs.Texts.{IsFirstInvalid};
ghost use Rattle.pim_rows.specs.Findings.{AreFound};
ghost use Rattle.pim_page.specs.Ends.{Happened, Fails};
ghost use Rattle.pim_findings.specs.Writing.{Finds, FindsFront};

use crate::fault::Fault;
use crate::transfer::{read_all, write_all};
use pim_page::{Sink, Source};
use pim_rows::{Findings, findings_of};
use std::alloc::Global;

/// Reads a text of facts to its end, and writes its rows. Returns its status, 0 or 1.
///
/// The clauses on bytes hold for streams whose contents are known, such as `MemoryReader` and
/// `MemoryWriter`.
///
/// # Errors
///
/// `Line` of the first invalid line; `Read` or `Write` if that failed in this call; `Memory` if out
/// of memory.
pub fn print_findings<R: Source, W: Sink>(
    alloc: Global,
    reader: &mut R,
    writer: &mut W,
) -> Result<u8, Fault>
    // The bytes are a text. Its rows were written, and nothing else. The status is the text's.
    ensures ok { IfOk result (λ status. IfSome (R.remaining reader.old) (λ bytes.
        Finds bytes (W.told writer.old) (W.told writer.new) status)) }

    // The reader is at its end.
    ensures end { IfOk result
        (λ _. IfSome (R.remaining reader.old) (λ _. R.remaining reader.new ≡ Some [])) }

    // Line n is the first invalid one, and nothing was written.
    ensures line { (n : ℕ) (why : Why) → result ≡ Err (Fault.Line n why)
        → IfSome (R.remaining reader.old) (λ bytes. IsFirstInvalid (lines_of bytes) n) }
    ensures line_unwritten { (n : ℕ) (why : Why) → result ≡ Err (Fault.Line n why)
        → (W.told writer.new).contents ≡ (W.told writer.old).contents }

    // A read failed in this call, and nothing was written.
    ensures read { result ≡ Err Fault.Read
        → Happened (R.failures reader.old) (R.failures reader.new) }
    ensures read_unwritten { result ≡ Err Fault.Read
        → (W.told writer.new).contents ≡ (W.told writer.old).contents }

    // A write failed in this call, or took no byte of a piece that wasn't empty. A prefix of the
    // rows was written.
    ensures write { result ≡ Err Fault.Write → Fails (W.told writer.old) (W.told writer.new) }
    ensures write_front { result ≡ Err Fault.Write → IfSome (R.remaining reader.old) (λ bytes.
        FindsFront bytes (W.told writer.old) (W.told writer.new)) }

    // Nothing was written.
    ensures memory_unwritten { result ≡ Err Fault.Memory
        → (W.told writer.new).contents ≡ (W.told writer.old).contents }
{
    let findings = read_findings(alloc, reader)?;
    write_all(writer, &findings.rows)?;
    Ok(findings.status)
}

/// Reads a text of facts to its end, and returns what is found in it.
fn read_findings<R: Source>(alloc: Global, reader: &mut R) -> Result<Findings, Fault>
    ensures ok { IfOk result (λ findings. IfSome (R.remaining reader.old) (λ bytes.
        AreFound (lines_of bytes) findings)) }
    ensures end { IfOk result
        (λ _. IfSome (R.remaining reader.old) (λ _. R.remaining reader.new ≡ Some [])) }
    ensures line { (n : ℕ) (why : Why) → result ≡ Err (Fault.Line n why)
        → IfSome (R.remaining reader.old) (λ bytes. IsFirstInvalid (lines_of bytes) n) }
    ensures read { result ≡ Err Fault.Read
        → Happened (R.failures reader.old) (R.failures reader.new) }
    ensures unwritten { result ≡ Err Fault.Write → ⊥ }
{
    let bytes = read_all(alloc, reader)?;
    Ok(findings_of(alloc, &bytes)?)
}
