//! The text of instructions.
//!
//! The crate promises that `write_instr` gives exactly the text of an instruction: the name of its
//! row, then one space and its operands; and that `push_word` appends the digits of an instruction
//! word. It leaves reading such texts to others.
//!
//! ```text
//! write_instr(alloc, &Instr::Jalr { rd: 1, rs1: 1, imm: 12 })? // jalr ra,12(ra)
//! push_word(&mut text, 0x9002, 2)? // 9002
//! ```
#![tactic(auto)]

mod mnemonics;
mod words;
mod writer;

pub use words::push_word;
pub use writer::write_instr;
