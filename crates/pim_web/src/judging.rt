//! The judge of a text in the host's memory.

ghost use Rattle.std.specs.Prelude.{◌≡◌, ◌<◌, ◌≤◌};
ghost use Rattle.pim_base.specs.Texts.{lines_of, FirstBadLine};
ghost use Rattle.pim_web.specs.Judged.{IsJudged, copied_over, no_memory};
ghost use Rattle.pim_web.specs.declared.numbers.TheConstants.{INVALID, NO_MEMORY};

use crate::judged::CJudged;
use crate::numbers::{INVALID, NO_MEMORY};
use pim_judge::{Fault, judge_bytes};
use std::alloc::Global;

/// Judges the text, and writes its report into the buffer, as far as it fits. A host whose buffer was too short makes a
/// longer one and judges again.
#[unsafe(no_mangle)]
pub extern "C" fn pim_judge(alloc: Global, text: &[u8], report: &mut [u8]) -> CJudged
    // The text spells a trace, the verdict is the trace's, and its report was written.
    ensures judged { result.kind < INVALID → IsJudged text.now report.old report.new result }

    // The line is the first invalid one.
    ensures line { result.kind ≡ INVALID → FirstBadLine (lines_of text.now) result.number }

    // The only other answer is that an allocation failed.
    ensures others { INVALID < result.kind → result ≡ no_memory }

    // Without a verdict there is no report, and nothing was written.
    ensures unwritten { INVALID ≤ result.kind → result.length ≡ 0 }
    ensures unchanged { INVALID ≤ result.kind → report.new ≡ report.old }
{
    match judge_bytes(alloc, text) {
        Ok(judged) => {
            copy(&judged.report, report);
            CJudged::of(judged.verdict, judged.report.len())
        }
        Err(Fault::Line(number)) => CJudged {
            kind: INVALID,
            number,
            length: 0,
        },
        Err(_) => CJudged {
            kind: NO_MEMORY,
            number: 0,
            length: 0,
        },
    }
}

/// Copies the bytes to the front of the buffer, as far as they fit.
pub(crate) fn copy(from: &[u8], to: &mut [u8])
    ensures { to.new ≡ copied_over from.now to.old }
{
    let room = to.len();
    let count = if from.len() < room { from.len() } else { room };
    to[..count].copy_from_slice(&from[..count]);
}
