//! How a call of an order ends: what is read for it, and what is said of it.
//!
//! [`file_bytes`] and [`report_bytes`] give the whole contents of a name, or the reply to one that has too many bytes or
//! can't be read. [`say_reply`] puts the one text that a call puts, and gives its exit status: that of the answer; 3 for a
//! read fault, 5 for want of memory; and 4, behind a prefix of the text, where a put failed. A read fault and a 4 come only
//! where the count of the name's or the sink's faults rose. Which answer an order gets is left to others.
//!
//! ```text
//! match file_bytes(alloc, files, "program.elf") {
//!     Ok(bytes) => say_reply(out, reply_of(answer_over(alloc, &bytes))),
//!     Err(reply) => say_reply(out, reply),
//! }
//! ```
#![tactic(auto)]

mod reading;
mod saying;

pub use reading::{file_bytes, report_bytes};
pub use saying::{reply_of, say, say_reply};

/// What an order gets: a status with a text, or word of a fault or of want of memory.
#[derive(Debug, Drop)]
pub enum Reply {
    Whole { status: u8, text: Vec<u8> },
    ReadFault,
    OutOfMemory,
}
