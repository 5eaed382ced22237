//! The rows that follow from a text of facts.
//!
//! [`findings_of`] returns the bytes of the rows, and the status: exactly those of specs/Rows.antt,
//! which is docs/ROWS.md in definitions. It follows the text line by line, and keeps how each wait,
//! section and other thing that lasts began.
//!
//! ```text
//! // Ok: the rows "end 3 5 0 0 0\n", and the status 0
//! findings_of(alloc, b"facts 1\nthread 1 30 high\n5 end\n");
//! // Err(Line(2, Refused(NoThread))): thread 1 isn't declared
//! findings_of(alloc, b"facts 1\n5 1 granted 1\n");
//! ```
#![tactic(auto)]

mod affected;
mod before;
mod block;
mod block_rows;
mod blocks;
mod deadlocks;
mod ended_rows;
mod findings;
mod going;
mod grant;
mod grants;
mod in_order;
mod lasting;
mod laws;
mod levels;
mod lines;
mod nest_table;
mod nesting;
mod off_time;
mod off_times;
mod open_wait;
mod open_waits;
mod row;
mod row_table;
mod rows_text;
mod run_changes;
mod run_start;
mod runs;
mod section_table;
mod sections;
mod starts;
mod table;
mod tally;
mod tracker;
mod wait_rows;
mod wait_start;
mod wait_starts;

pub use affected::{affects_all, put_all_threads};
pub use deadlocks::{by_number, put_deadlocks};
pub use findings::{Findings, findings_of};
pub use laws::{
    bounds_law, deadlock_law, inversion_law, order_law, section_owner_law, section_times_law,
    sums_law,
};
pub use lines::{actor, locked_mutex};
pub use nest_table::{Nests, add_nest, put_nests};
pub use open_wait::OpenWait;
pub use row::Word;
pub use row_table::RowTable;
pub use rows_text::{put_number, put_row};
pub use section_table::{Section, Sections, add_section, put_sections};
pub use table::Times;
pub use tally::Tally;
