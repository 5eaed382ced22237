//! The spans of what holds over time, by a text of facts.
//!
//! [`spans_of`] returns the bytes of the spans within a window of time: exactly those of
//! specs/Found.antt, which is 'Spans' of docs/ROWS.md in definitions. It follows the text line by
//! line, and keeps by thread and mutex since which line the same holds.
//!
//! ```text
//! // Ok: "gets 1 30 30 0 5\n"
//! spans_of(alloc, b"facts 1\nthread 1 30 high\n5 end\n", Window::all());
//! // Err(Line(2, Refused(NoThread))): thread 1 isn't declared
//! spans_of(alloc, b"facts 1\n5 1 granted 1\n", Window::all());
//! ```
#![tactic(auto)]

mod affected;
mod finding;
mod follower;
mod kind;
mod said;
mod span;
mod text;
mod thread_tracks;
mod track;
mod tracks;
mod window;

pub use finding::spans_of;
pub use kind::Kind;
pub use span::{Span, Start};
pub use track::Track;
pub use window::Window;
