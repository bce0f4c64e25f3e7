//! Instruction words of RV64I and the extension M, and the names of the integer registers.
//!
//! The crate promises that `decode` and `encode` are the instruction table of `specs/Instructions.antt`
//! in both directions, and that `register_name` and `read_register` are the names of
//! `specs/Registers.antt`. Nothing here takes memory. It leaves to others what an instruction does and
//! how it is written as text.
//!
//! ```text
//! decode(0x00c080e7) // Some(Instr::Jalr { rd: 1, rs1: 1, imm: 12 })
//! ```
#![tactic(auto)]

mod decoder;
mod encoder;
mod fields;
pub mod laws;
mod layouts;
mod operations;
mod registers;
mod rows;

pub use decoder::decode;
pub use encoder::{encode, well_formed};
pub use registers::{read_register, register_name};
pub use rv_instr::{BranchOp, ImmOp, Instr, LoadOp, RegOp, ShiftOp, StoreOp};
