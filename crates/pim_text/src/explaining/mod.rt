//! Why a line of a text is invalid: from the text and the number of the line to a reason.
ghost use Rattle.pim_base.specs.Texts.{lines_of};
ghost use Rattle.pim_text.specs.Explains.{Explains};

mod bytes;
mod line;
mod place;
mod reason;
mod step;
mod word;

use crate::kind::Kind;
use crate::reading::parse;
use line::{of_first_line, of_next_line};
use place::place_of;
pub use reason::{NewWord, Reason};
use std::alloc::Global;

/// Returns why a line of a text is invalid, counted from 1. The lines before it should be valid, as those before the
/// first invalid one are.
///
/// The reason is `Reason::Other` if no other was found, also if out of memory or if there is no such line. In a text
/// without lines, line 1 is an empty one.
pub fn explain(alloc: Global, text: &[u8], number: u32, kind: Kind) -> Reason
    ensures { Explains kind (lines_of text.now) number result }
{
    let Some(place) = place_of(text, number) else {
        return Reason::Other;
    };
    if place.before.is_empty() {
        return of_first_line(place.line);
    }
    match parse(alloc, place.before) {
        Ok(before) => of_next_line(&before, place.line, kind),
        Err(_) => Reason::Other,
    }
}
