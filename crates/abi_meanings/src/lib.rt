//! What verdicts tell of runs of the machine.
//!
//! The crate promises, by the laws of [`laws`], that a register which is told to be kept is kept in each run
//! that keeps the premises, from any entry; that no frame ends of a procedure which is told never to; and that
//! a register which is told to be clobbered, with a value by the entry's words, has that word where the walk
//! ends. It runs nothing.
//!
//! ```text
//! kept_is_kept(); // ghost: the law is the function's clause
//! ```
#![tactic(auto)]

pub mod laws;
