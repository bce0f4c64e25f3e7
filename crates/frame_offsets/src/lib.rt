//! Offsets from the frame: which registers hold, at a point, the stack pointer's value at the entry of the
//! point's procedure plus a number that is the same on every way there.
//!
//! [`offsets`] gives for each point and register the offset that it has at the end of every walk of the
//! procedure to the point, and none where the walks differ or one ends with none. Only ADDI moves an
//! offset, and a call keeps those of sp and of s0 to s11 alone. What is done with offsets is left to others.
//!
//! ```text
//! let offsets = offsets(alloc, &points)?;
//! let sp = offsets.at(point, 2); // Some(-16) behind `addi sp,sp,-16`
//! ```
#![tactic(auto)]

mod compute;
mod frame;
mod known;
mod rows;
mod settle;
mod sources;
mod table;

pub use compute::offsets;
pub use frame::Offsets;

/// Out of memory.
#[derive(Clone, Copy, Debug, PartialEq, Eq)]
pub struct Memory;
