//! A machine that runs RV64IM code, with and without compressed instructions, one step at a time.
//!
//! The crate promises that [`Machine::start`] gives a machine at an image's entry, and that
//! [`Machine::step`] does what the RISC-V Unprivileged ISA says of the instruction at pc: the machine goes
//! to the one machine that `specs/Steps.antt` relates to it, and a record tells the step. Where the
//! machine makes no step of its own it stays as it was, and the stop says why. What an ECALL does is its
//! environment's, so the relation lets it leave any word in a0 and any memory, and `step` stops there.
//! Only stores take memory. The crate knows nothing of points, slots or assignments.
//!
//! ```text
//! let mut machine = Machine::start(alloc, &image, [0; 32])?;
//! let told = machine.step()?;
//! ```
#![tactic(auto)]

mod alu;
mod division;
mod execute;
pub mod laws;
mod load;
mod machine;
mod pages;
mod product;
mod records;
mod step;
mod words;

pub use alu::{imm_result, plus, reg_result, shift_result, upper};
pub use machine::Machine;
pub use records::{StepRec, Stop, StoreRec};

/// Out of memory.
#[derive(Clone, Copy, Debug, PartialEq, Eq)]
pub struct Memory;
