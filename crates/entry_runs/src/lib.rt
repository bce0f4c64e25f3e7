//! What holds of runs of machine code under a settled table of entry values.
//!
//! The crate promises, by the laws of [`laws`], that a run which keeps the premises of `specs/Premises.antt`
//! is described by the table at each moment, that each frame that ends goes back to the word that ra had at
//! its entry, with each register that its summary keeps as it was there, and that a frame which has gone
//! along one way is described by that way's own state. It runs nothing.
//!
//! ```text
//! runs_are_described(); // ghost: the law is the function's clause
//! ```
#![tactic(auto)]

pub mod laws;
