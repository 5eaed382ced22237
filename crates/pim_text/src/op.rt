//! The operation of a step line: what its actor asks for.
ghost use Rattle.std.specs.Prelude.{◌≡◌, ℕ, ◌∷◌, ◌++◌, List, MatchOption, decimal};
ghost use Rattle.pim_base.specs.Spelling.{SPACE, IsNumber, IsOp, op_words};
ghost use Rattle.pim_text.specs.Reading.{pieces};

use crate::word::{cut_number, is};
use pim_base::{MutexNo, Op, TaskNo};

/// Returns the operation that the words begin with, and the words behind it, or `None` if they begin with none. The
/// first word was cut off.
pub(crate) fn read_op<'a>(word: &[u8], tail: Option<&'a [u8]>) -> Option<(Op, Option<&'a [u8]>)>
    ensures { MatchOption result
        ((op : Op) (ws : List (List ℕ)) → IsOp op → word.now ∷ pieces SPACE tail.entry ≡ op_words op ++ ws → ⊥)
        (λ read. IsOp read.0 × (word.now ∷ pieces SPACE tail.entry ≡ op_words read.0 ++ pieces SPACE read.1)) }
{
    if is(word, "release") {
        return Some((Op::ReleaseAll, tail));
    }
    let (number, tail) = read_target(tail)?;
    if is(word, "lock") {
        Some((Op::Lock(MutexNo(number)), tail))
    } else if is(word, "unlock") {
        Some((Op::Unlock(MutexNo(number)), tail))
    } else if is(word, "try") {
        Some((Op::Try(MutexNo(number)), tail))
    } else if is(word, "cancel") {
        Some((Op::Cancel(TaskNo(number)), tail))
    } else if is(word, "base") {
        let (level, tail) = read_target(tail)?;
        Some((Op::SetBase(TaskNo(number), level), tail))
    } else if is(word, "ceil") {
        let (level, tail) = read_target(tail)?;
        Some((Op::SetCeiling(MutexNo(number), level), tail))
    } else {
        None
    }
}

/// Returns the number that the words begin with, and the words behind it, or `None` where they begin with none.
fn read_target(tail: Option<&[u8]>) -> Option<(u16, Option<&[u8]>)>
    ensures { MatchOption result
        ((n : ℕ) (ws : List (List ℕ)) → IsNumber n → pieces SPACE tail.entry ≡ decimal n ∷ ws → ⊥)
        (λ read. IsNumber read.0 × (pieces SPACE tail.entry ≡ decimal read.0 ∷ pieces SPACE read.1)) }
{
    cut_number(tail?)
}
