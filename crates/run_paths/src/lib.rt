//! Runs of the machine follow paths of the program that stands for its code.
//!
//! The crate runs nothing. Its definitions say which procedures a run has open at a moment, which discipline it keeps,
//! and which path of the lifted program it spells, and its functions' contracts are laws about these.
#![tactic(auto)]

pub mod laws;
