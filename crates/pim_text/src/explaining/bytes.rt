//! Reasons that the bytes of a line give, whatever its words are.
ghost use Rattle.std.specs.Prelude.{◌<◌, length, Option, IfSome};
ghost use Rattle.pim_base.specs.Texts.{Trace};
ghost use Rattle.pim_text.specs.declared.kind.Kind.{Kind};
ghost use Rattle.pim_text.specs.Explains.{Says};

use crate::explaining::reason::Reason;

/// Returns a reason that a byte gives: a comment, a byte that no line has, or a space that isn't between two words.
pub(crate) fn of_bytes(line: &[u8]) -> Option<Reason>
    ensures { (kind : Kind) (before : Option Trace) → IfSome result (Says kind before line.now) }
{
    if let Some(b'#') = line.first() {
        return Some(Reason::Comment);
    }
    if let Some(reason) = of_odd_byte(line) {
        return Some(reason);
    }
    if line.is_empty() {
        None
    } else {
        of_spaces(line)
    }
}

/// Returns the reason that the first byte gives which isn't printable ASCII.
fn of_odd_byte(line: &[u8]) -> Option<Reason>
    ensures { (kind : Kind) (before : Option Trace) → IfSome result (Says kind before line.now) }
{
    for place in 0..line.len() {
        let byte = line[place];
        if byte == b'\t' {
            return Some(Reason::Tab);
        }
        if byte == b'\r' {
            return Some(Reason::CarriageReturn);
        }
        if byte < b' ' || b'~' < byte {
            return Some(Reason::OtherByte(byte));
        }
    }
    None
}

/// Returns the reason that a space gives which isn't between two words.
fn of_spaces(line: &[u8]) -> Option<Reason>
    requires some { 0 < length line.now }
    ensures { (kind : Kind) (before : Option Trace) → IfSome result (Says kind before line.now) }
{
    if line[0] == b' ' {
        return Some(Reason::SpaceBefore);
    }
    if line[line.len() - 1] == b' ' {
        return Some(Reason::SpaceAfter);
    }
    for place in 1..line.len() {
        if line[place - 1] == b' ' && line[place] == b' ' {
            return Some(Reason::TwoSpaces);
        }
    }
    None
}
