//! Instruction words beyond RV64IM of which little is known, and little need be: CSR instructions, atomics,
//! FENCE.I and those of privileged modes.
//!
//! The crate promises that [`opaque_row`] is the table of `specs/Table.antt`: for a word, the one register
//! that its instruction may change and the bytes that it may, or that it makes no step. It is more than the
//! instruction does. A word that isn't listed has no row; the table lists none of RV64IM.
//!
//! ```text
//! opaque_row(0x30002573, 4) // csrr a0, mstatus: a0 may change, no bytes do
//! ```
#![tactic(auto)]

mod rows;
mod table;

pub use rows::Row;
pub use table::opaque_row;
