//! From a text of facts to its spans.

ghost use Rattle.std.specs.Prelude.{◌≡◌, ℕ, [], Some, IfOk, IfSome, Err};
ghost use Rattle.pim_fact_lines.specs.Texts.{lines_of};
ghost use Rattle.pim_world.specs.declared.fault.Why.{Why};
ghost use Rattle.pim_world.specs.Texts.{IsFirstInvalid};
ghost use Rattle.pim_spans.specs.Found.{AreFound};
ghost use Rattle.pim_page.specs.Ends.{Happened, Fails};
ghost use Rattle.pim_findings.specs.Writing.{FindsSpans, FindsSpansFront};

use crate::fault::Fault;
use crate::transfer::{read_all, write_all};
use pim_page::{Sink, Source};
use pim_spans::{Window, spans_of};
use std::alloc::Global;

/// Reads a text of facts to its end, and writes its spans within a window of time. Returns 0.
///
/// The clauses on bytes hold for streams whose contents are known, such as `MemoryReader` and
/// `MemoryWriter`.
///
/// # Errors
///
/// `Line` of the first invalid line; `Read` or `Write` if that failed in this call; `Memory` if out
/// of memory.
pub fn print_spans<R: Source, W: Sink>(
    alloc: Global,
    reader: &mut R,
    writer: &mut W,
    window: Window,
) -> Result<u8, Fault>
    // The bytes are a text. Its spans within the window were written, and nothing else.
    ensures ok { IfOk result (λ status. IfSome (R.remaining reader.old) (λ bytes.
        FindsSpans window bytes (W.told writer.old) (W.told writer.new))) }
    ensures status { IfOk result (λ status. status ≡ 0) }

    // The reader is at its end.
    ensures end { IfOk result
        (λ _. IfSome (R.remaining reader.old) (λ _. R.remaining reader.new ≡ Some [])) }

    // Line n is the first invalid one, and nothing was written.
    ensures line { (n : ℕ) (why : Why) → result ≡ Err (Fault.Line n why)
        → IfSome (R.remaining reader.old) (λ bytes. IsFirstInvalid (lines_of bytes) n) }
    ensures line_unwritten { (n : ℕ) (why : Why) → result ≡ Err (Fault.Line n why)
        → (W.told writer.new).contents ≡ (W.told writer.old).contents }

    // A read failed in this call, and nothing was written.
    ensures read { result ≡ Err Fault.Read
        → Happened (R.failures reader.old) (R.failures reader.new) }
    ensures read_unwritten { result ≡ Err Fault.Read
        → (W.told writer.new).contents ≡ (W.told writer.old).contents }

    // A write failed in this call, or took no byte of a piece that wasn't empty. A prefix of the
    // spans was written.
    ensures write { result ≡ Err Fault.Write → Fails (W.told writer.old) (W.told writer.new) }
    ensures write_front { result ≡ Err Fault.Write → IfSome (R.remaining reader.old) (λ bytes.
        FindsSpansFront window bytes (W.told writer.old) (W.told writer.new)) }

    // Nothing was written.
    ensures memory_unwritten { result ≡ Err Fault.Memory
        → (W.told writer.new).contents ≡ (W.told writer.old).contents }
{
    let spans = read_spans(alloc, reader, window)?;
    write_all(writer, &spans)?;
    Ok(0)
}

/// Reads a text of facts to its end, and returns its spans within a window of time.
fn read_spans<R: Source>(alloc: Global, reader: &mut R, window: Window) -> Result<Vec<u8>, Fault>
    ensures ok { IfOk result (λ spans. IfSome (R.remaining reader.old) (λ bytes.
        AreFound window (lines_of bytes) spans.items)) }
    ensures end { IfOk result
        (λ _. IfSome (R.remaining reader.old) (λ _. R.remaining reader.new ≡ Some [])) }
    ensures line { (n : ℕ) (why : Why) → result ≡ Err (Fault.Line n why)
        → IfSome (R.remaining reader.old) (λ bytes. IsFirstInvalid (lines_of bytes) n) }
    ensures read { result ≡ Err Fault.Read
        → Happened (R.failures reader.old) (R.failures reader.new) }
    ensures unwritten { result ≡ Err Fault.Write → ⊥ }
{
    let bytes = read_all(alloc, reader)?;
    Ok(spans_of(alloc, &bytes, window)?)
}
