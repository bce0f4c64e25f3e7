//! The lines of proof files that reports don't have, read: the inverse of writing them.
//!
//! [`read_line`] says of a text exactly what the line tells whose text it is, or that it is no such line's: the line of a
//! head or of a procedure's entry, a row of so many words, or the one behind which claims stand. Which line may follow which
//! is left to others. No line costs memory but the words of a row.
//!
//! ```text
//! read_line(alloc, 289, b"row 0:0x1 288:0x1")? // Some(Line::Row(..)), two words
//! read_line(alloc, 17, b"row 0:0x1 288:0x1")? // None, since a row of 17 words has no position 288
//! ```
#![tactic(auto)]

mod lines;
mod words;

pub use lines::{Line, read_line};
