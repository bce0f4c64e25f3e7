//! What is told of saved registers, as aligned text for people, faults first.
//!
//! The crate promises that [`write_text`] gives exactly the text of `specs/Texts.antt`: the counts, what is told of
//! each routine that is clobbered or unknown, the names of the others, and what is assumed of runs; on request with
//! the way to each fault and the addresses of each premise.
//!
//! ```text
//! demo.elf: 2 procedures, 1 kept, 1 clobbered, 0 unknown, 0 never return
//!
//! CLOBBERED
//! f        0x10004  frame 16
//!   s0   at 0x1000c  addi s0,a0,0    is a0+0
//!        returns at 0x1001c; kept: sp ra s1-s11
//! ```
#![tactic(auto)]

mod findings;
mod names;
mod parts;
mod places;
mod premises;
mod reasons;
mod sections;
mod standings;
mod writer;

pub use parts::Part;
pub use writer::write_text;
