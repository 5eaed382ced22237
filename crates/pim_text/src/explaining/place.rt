//! Where a line of a text is.
ghost use Rattle.std.specs.Prelude.{IfSome};
ghost use Rattle.pim_base.specs.Texts.{lines_of};
ghost use Rattle.pim_text.specs.Explains.{IsLineAt};

use crate::word::cut;

/// A line, and the whole lines before it.
#[derive(Clone, Copy)]
pub(crate) struct Place<'a> {
    /// The bytes before the line.
    pub before: &'a [u8],
    /// The line, without its newline.
    pub line: &'a [u8],
}

/// Returns the line with this number, counted from 1, or `None` if the text has fewer lines before it. The line that
/// would follow the last one is empty.
pub(crate) fn place_of(text: &[u8], number: u32) -> Option<Place<'_>>
    ensures { IfSome result (λ place. IsLineAt (lines_of text.now) number (lines_of place.before.now) place.line.now) }
{
    if number == 0 {
        return None;
    }
    let mut rest = text;
    for _passed in 1..number {
        let (_line, after) = cut(rest, b'\n');
        rest = after?;
    }
    let (line, _after) = cut(rest, b'\n');
    Some(Place {
        before: &text[..text.len() - rest.len()],
        line,
    })
}
