//! The lines of reports and traces in a buffer, and the streams that bytes are read from and written to.
//!
//! A [`Page`] has the lines that are not yet written: those of a report, and those of a trace. In contracts its value is
//! the list of its bytes. [`Source`] and [`Sink`] are streams that may fail. [`Input`] and [`Output`] are streams over
//! the readers and writers of std, and no contract names their contents. [`MemoryReader`] and [`MemoryWriter`] are
//! streams in memory, and the contracts name their contents.
//!
//! `pim_judge` makes the steps of a trace, and writes its report by pages. This crate needs no manager.
//!
//! ```text
//! let mut page = Page::new(alloc)?;
//! page.reply_line(1, &Reply::Granted)?;
//! page.accepted(1)?;
//! // page.as_slice() is "1 granted\naccepted 1\n"
//! ```
#![tactic(auto)]

mod ends;
mod memory_ends;
mod numerals;
mod page;
mod puts;
mod streams;
mod trace;

pub use ends::{Failed, Sink, Source};
pub use memory_ends::{MemoryReader, MemoryWriter, Trouble};
pub use page::{FULL, Page};
pub use streams::{Input, Output};
