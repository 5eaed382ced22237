//! The judge: from a trace to its report.
ghost use Rattle.std.specs.Prelude.{◌≡◌, ◌<◌, ◌^◌, ℕ, ◌⊎◌, [], length, Some, IfOk, IfErr, IfSome, Err, MatchResult};
ghost use Rattle.pim_base.specs.State.{start};
ghost use Rattle.pim_base.specs.Steps.{after, reply_of};
ghost use Rattle.pim_base.specs.Texts.{Trace, lines_of, Spells, IsTrace, IsWithinLimits, FirstBadLine};
ghost use Rattle.pim_base.specs.Reports.{agrees, step_lines, report_from, report_of, verdict_from, verdict_of};
ghost use Rattle.pim_page.specs.Ends.{Happened, Fails, Appends, AppendsFront};
ghost use Rattle.pim_text.specs.Reading.{trace_of};
ghost use Rattle.pim_judge.specs.Faults.{IsParseFault, IsWorkerless};
ghost use Rattle.pim_judge.specs.Prints.{Prints};
ghost use Rattle.pim_judge.specs.Taken.{Takes};
ghost use Rattle.pim_judge.specs.Status.{status_of};

use crate::fault::Fault;
use crate::printer::Printer;
use crate::reading::parse;
use crate::transfer::read_all;
use pim_base::{StepLine, Verdict};
use pim_manager::{Manager, TrackedManager};
use pim_page::{MemoryWriter, Page, Sink, Source};
use pim_text::Text;
use std::alloc::Global;

/// Reads a trace to its end, and writes its report.
///
/// The clauses on bytes hold for streams whose contents are known, such as `MemoryReader` and `MemoryWriter`.
/// Nothing is written before the whole text is read and found valid. The report is written in pages of about 64 KiB.
///
/// # Errors
///
/// `Fault::Line(n)` if line n, counted from 1, is the first invalid one; `Fault::Read` or `Fault::Write` if a read or a
/// write of this call failed; `Fault::Memory` if out of memory.
#[tactic(auto, using(crate::proofs::PrintingLemmas::puts_whole, crate::proofs::PrintingLemmas::stops_front))]
pub fn judge<R: Source, W: Sink>(
    alloc: Global,
    reader: &mut R,
    writer: &mut W,
) -> Result<Verdict, Fault>
    // The bytes are a trace. Its report was written, and nothing else. The verdict is the report's.
    ensures ok { IfOk result (λ verdict. IfSome (R.remaining reader.old) (λ bytes.
        (t : Trace) × Spells (lines_of bytes) t
        × Appends (W.told writer.old).contents (W.told writer.new).contents (report_of t) × (verdict ≡ verdict_of t))) }

    // The reader is at its end.
    ensures end { IfOk result (λ _. IfSome (R.remaining reader.old) (λ _. R.remaining reader.new ≡ Some [])) }

    // Line n is the first invalid one, and nothing was written.
    ensures line { (n : ℕ) → result ≡ Err (Fault.Line n)
        → IfSome (R.remaining reader.old) (λ bytes. FirstBadLine (lines_of bytes) n) }
    ensures line_unwritten { (n : ℕ) → result ≡ Err (Fault.Line n)
        → (W.told writer.new).contents ≡ (W.told writer.old).contents }

    // A read failed in this call, and nothing was written.
    ensures read { result ≡ Err Fault.Read → Happened (R.failures reader.old) (R.failures reader.new) }
    ensures read_unwritten { result ≡ Err Fault.Read → (W.told writer.new).contents ≡ (W.told writer.old).contents }

    // A write failed in this call, or took no byte of a piece that wasn't empty. A prefix of the report was written.
    ensures write { result ≡ Err Fault.Write → Fails (W.told writer.old) (W.told writer.new) }
    ensures write_front { result ≡ Err Fault.Write → IfSome (R.remaining reader.old) (λ bytes.
        (t : Trace) × Spells (lines_of bytes) t
        × AppendsFront (W.told writer.old).contents (W.told writer.new).contents (report_of t)) }

    // Nothing was written, or a prefix of the report.
    ensures memory { result ≡ Err Fault.Memory → ((W.told writer.new).contents ≡ (W.told writer.old).contents)
        ⊎ IfSome (R.remaining reader.old) (λ bytes. (t : Trace) × Spells (lines_of bytes) t
        × AppendsFront (W.told writer.old).contents (W.told writer.new).contents (report_of t)) }

    // There is no other fault.
    ensures others { IfErr result IsWorkerless }
{
    let text = read_text(alloc, reader)?;
    print_text(alloc, writer, &text)
}

/// Reads a reader to its end, and returns the text. The bytes are not kept.
fn read_text<R: Source>(alloc: Global, reader: &mut R) -> Result<Text, Fault>
    ensures ok { IfOk result (λ text.
        IfSome (R.remaining reader.old) (λ bytes. Spells (lines_of bytes) (trace_of text))) }
    ensures limits { IfOk result (λ text. IsWithinLimits (trace_of text)) }
    ensures end { IfOk result (λ _. IfSome (R.remaining reader.old) (λ _. R.remaining reader.new ≡ Some [])) }
    ensures line { (n : ℕ) → result ≡ Err (Fault.Line n)
        → IfSome (R.remaining reader.old) (λ bytes. FirstBadLine (lines_of bytes) n) }
    ensures read { result ≡ Err Fault.Read → Happened (R.failures reader.old) (R.failures reader.new) }
    ensures write { result ≡ Err Fault.Write → ⊥ }
    ensures others { IfErr result IsWorkerless }
{
    let bytes = read_all(alloc, reader)?;
    parse(alloc, &bytes)
}

/// The report and the verdict of a trace.
#[derive(Debug, Drop)]
pub struct Judged {
    /// The bytes of the report.
    pub report: Vec<u8>,
    /// The verdict, the report's last line.
    pub verdict: Verdict,
}

/// Judges a trace in memory.
///
/// # Errors
///
/// `Fault::Line(n)` exactly if line n, counted from 1, is the first invalid one; `Fault::Memory` if out of memory.
/// There is no other fault.
pub fn judge_bytes(alloc: Global, bytes: &[u8]) -> Result<Judged, Fault>
    ensures { MatchResult result
        (λ judged. (t : Trace) × Spells (lines_of bytes.now) t
        × (judged.report.items ≡ report_of t) × (judged.verdict ≡ verdict_of t))
        (IsParseFault IsTrace (lines_of bytes.now)) }
{
    let text = parse(alloc, bytes)?;
    let mut writer = MemoryWriter::new(alloc);
    match print_text(alloc, &mut writer, &text) {
        Ok(verdict) => Ok(Judged {
            report: writer.into_bytes(),
            verdict,
        }),
        // A writer in memory fails only if an allocation fails.
        Err(_) => Err(Fault::Memory),
    }
}

/// Writes the report of a text.
fn print_text<W: Sink>(alloc: Global, writer: &mut W, text: &Text) -> Result<Verdict, Fault>
    requires limits { IsWithinLimits (trace_of text.now) }
    ensures prints { Prints (W.told writer.old) (W.told writer.new) (report_of (trace_of text.now)) [] result }
    ensures verdict { IfOk result (λ verdict. verdict ≡ verdict_of (trace_of text.now)) }
{
    let mut page = Page::new(alloc)?;
    let mut manager = tracked_manager_of(alloc, text)?;
    let mut report = Printer::new(writer, &mut page);
    let verdict = make_steps(&mut report, &mut manager, &text.lines)?;
    report.write()?;
    Ok(verdict)
}

/// Makes the steps, and reports on each, up to the first whose recorded reply differs from the model's.
fn make_steps<W: Sink>(
    report: &mut Printer<'_, W>,
    manager: &mut TrackedManager,
    lines: &[StepLine],
) -> Result<Verdict, Fault>
    requires few { length lines.now < 2 ^ 32 }
    ensures report { Takes W.told report.old report.new (report_from 1 manager.old.state lines.now) result }
    ensures verdict { IfOk result (λ verdict. verdict ≡ verdict_from 1 manager.old.state lines.now) }
{
    for (index, line) in lines.iter().enumerate() {
        let number = index as u32 + 1;
        if !make_step(report, manager, number, line)? {
            return Ok(Verdict::Rejected(number));
        }
    }
    let count = lines.len() as u32;
    report.accepted(count)?;
    Ok(Verdict::Accepted(count))
}

/// Makes a step, and reports on it. Returns whether the recorded reply agrees with the model's.
#[tactic(auto, using(crate::proofs::ReportLemmas::takes_step))]
fn make_step<W: Sink>(
    report: &mut Printer<'_, W>,
    manager: &mut TrackedManager,
    number: u32,
    line: &StepLine,
) -> Result<bool, Fault>
    ensures report { Takes W.told report.old report.new (step_lines number manager.old.state line.now) result }
    ensures agrees { IfOk result (λ goes_on. goes_on ≡ agrees line.now.recorded (reply_of manager.old.state line.now.step)) }
    ensures after { manager.new.state ≡ after manager.old.state line.now.step }
{
    let reply = manager.step(line.step).reply;
    report.step(number, &reply, &line.recorded, manager)
}

/// Returns a manager of the tasks and mutexes that a text declares, which keeps what its last step changed. All mutexes
/// are free.
fn tracked_manager_of(alloc: Global, text: &Text) -> Result<Box<TrackedManager>, Fault>
    requires limits { IsWithinLimits (trace_of text.now) }
    ensures { MatchResult result
        (λ manager. manager.value.state ≡ start text.now.bases.items text.now.protocols.items 1)
        (λ fault. fault ≡ Fault.Memory) }
{
    match TrackedManager::new(alloc, &text.bases, &text.protocols) {
        Ok(manager) => Ok(manager),
        Err(_) => Err(Fault::Memory),
    }
}

/// Returns a manager of the tasks and mutexes that a text declares, which must be within the limits of a text. All
/// mutexes are free.
///
/// # Errors
///
/// Returns `Fault::Memory` if out of memory.
pub fn manager_of(alloc: Global, text: &Text) -> Result<Manager, Fault>
    requires limits { IsWithinLimits (trace_of text.now) }
    ensures { MatchResult result
        (λ manager. manager ≡ start text.now.bases.items text.now.protocols.items 1)
        (λ fault. fault ≡ Fault.Memory) }
{
    match Manager::new(alloc, &text.bases, &text.protocols) {
        Ok(manager) => Ok(manager),
        Err(_) => Err(Fault::Memory),
    }
}

/// Returns the exit status for an answer of `judge` or `check`: 0 if the trace was accepted, 1 if it was rejected, 2
/// for a fault. An `Ok` of `run` counts as accepted.
pub fn status(answer: &Result<Verdict, Fault>) -> u8
    ensures { result ≡ status_of answer.now }
{
    match answer {
        Ok(Verdict::Accepted(_)) => 0,
        Ok(Verdict::Rejected(_)) => 1,
        Err(_) => 2,
    }
}
