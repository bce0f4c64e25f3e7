//! What holds of the files that are made from a number.
//!
//! The crate runs nothing. `gen_elf` says which bytes a made file has, and the crates of the analysis say which files they
//! refuse, for what they are, for the flow of their code or for the heads of their program. Here a law joins them: no made
//! file is refused for any of these, so of its input the list of names alone can be.
//!
//! ```text
//! made_files_are_accepted(); // ghost: the law is the function's clause
//! ```
#![tactic(auto)]

pub mod laws;
