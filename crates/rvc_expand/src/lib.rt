//! The compressed instructions of RV64C that have no floating point: 16-bit words, called halves, each
//! of which expands to one instruction of the base.
//!
//! The crate promises that `expand` is the table of `specs/Rows.antt`, that `length_of` tells the two
//! lengths of instructions apart by their first byte, and that `decode_with_length` is the meaning of a
//! word of either length. Nothing here takes memory. It leaves to others where instructions stand.
//!
//! ```text
//! expand(0x4515) // Some(Instr::Imm { op: ImmOp::Addi, rd: 10, rs1: 0, imm: 5 })
//! ```
#![tactic(auto)]

mod expander;
mod fields;
mod immediates;
pub mod laws;
mod lengths;

pub use expander::expand;
pub use lengths::{decode_with_length, length_of};
