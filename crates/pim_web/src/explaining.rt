//! Why a line of a text in the host's memory is invalid.

ghost use Rattle.std.specs.Prelude.{◌≡◌, List, ℕ, length};
ghost use Rattle.pim_web.specs.Judged.{copied_over};

use crate::judging::copy;
use pim_text::{Kind, explain};
use std::alloc::Global;

/// Writes why a line of the text, a trace, is invalid, as a sentence, into the buffer, as far as it fits. Lines are
/// counted from 1. Returns the length of the sentence, or 0 if an allocation failed.
#[unsafe(no_mangle)]
pub extern "C" fn pim_explain(alloc: Global, text: &[u8], number: u32, sentence: &mut [u8]) -> usize
    // A sentence of this length was written, and nothing else.
    ensures { (written : List ℕ) × (result ≡ length written) × (sentence.new ≡ copied_over written sentence.old) }
{
    let reason = explain(alloc, text, number, Kind::Trace);
    match format!(in alloc; "{reason}") {
        Ok(written) => {
            copy(written.as_bytes(), sentence);
            written.len()
        }
        Err(_) => 0,
    }
}
