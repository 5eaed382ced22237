//! The text of traces and scripts, how it is read, and why a line is invalid.
//!
//! [`parse`] reads the bytes of a trace, [`parse_script`] those of a script, which is to be run. Each returns the
//! [`Text`], its version, what the bytes declare and the steps that they ask for, or the [`TextFault`] that names the
//! first invalid line. What is valid is said in `pim_base` (specs/Texts.antt, specs/Scripts.antt): the lines that are
//! the one spelling of a trace.
//!
//! [`explain`] looks at the first invalid line and at the lines before it, and returns a [`Reason`] whose text is a
//! sentence for a user. The reason is true of the line (specs/Explains.antt), but need not be the only one.
//!
//! ```text
//! let text = parse(alloc, b"pim 1\ntask 1 10\nmutex 1 protect 40\n1 lock 1 = granted\n")?;
//! // text.version is 1, text.bases [10], text.protocols [Protocol::Protect(40)]; text.lines has the one step with its
//! // reply
//! let text = b"pim 1\ntask 1 100\n";
//! parse(alloc, text); // Err(TextFault::Line(2))
//! explain(alloc, text, 2, Kind::Trace); // Reason::Priority: "priorities are 1 to 99"
//! ```
#![tactic(auto)]

mod explaining;
mod fault;
mod kind;
mod laws;
mod line;
mod op;
mod reading;
mod reply;
mod text;
mod word;

pub use explaining::{NewWord, Reason, explain};
pub use fault::TextFault;
pub use kind::Kind;
pub use laws::{first_bad_line_law, first_bad_script_line_law};
pub use pim_base::StepLine;
pub use reading::{parse, parse_script};
pub use text::Text;
