//! What is told of saved registers, as lines for scripts.
//!
//! The crate promises that [`write_lines`] gives exactly the text of `specs/Lines.antt`: a record a line.
//!
//! ```text
//! affine-check 1
//! proc 0x10004 16 f
//! sp kept
//! s0 clobbered 0x1000c return 0x1001c is a0+0
//! end 13 1 0 0
//! ```
#![tactic(auto)]

mod tallies;
mod tally;
mod words;
mod writer;

pub use tallies::{more, tally_of, with_findings};
pub use tally::Tally;
pub use words::{number_of, push_known, push_number, push_register};
pub use writer::{counted, push_known_mark, write_lines};
