//! What the order `run` answers: the bytes of a report are read, a run is checked against it, and the verdict becomes a text
//! with a status.
//!
//! [`run_answer`] has status 0 where no watch found anything and 7 where one did, with the verdict's text; and 6, with a
//! line, where the bytes are no report's text, or the report tells of a procedure or a point that the file doesn't have. A
//! law says that nothing else is refused: over the text of a report of words that tells of the file alone a run is made.
//! `report_read` tells which bytes are refused and why, `run_watch` what a run is and what its watches find, and
//! `verdict_text` how a verdict is written. Files, sinks and words are left to others, and the watches are the caller's.
//!
//! ```text
//! run_answer(alloc, image, points, offsets, b"affine-report 1\n", regs, 1000, watches)
//! // Ok((6, "refused report Syntax 2\n")), as no line of names follows
//! ```
#![tactic(auto)]

mod answer;
mod laws;
mod lines;

pub use answer::run_answer;
pub use laws::{files_reports_are_known, known_reports_are_checked};
pub use lines::{report_line, stranger_line};
