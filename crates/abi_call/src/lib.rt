//! The top call of `abi_check`: it answers what each routine of a file does to sp, ra and s0 to s11.
//!
//! [`abi_main`] takes the arguments after the program's name, files to read and a sink for the text, and gives the exit
//! status. Its clauses say which text the sink gains and why each status comes, and what a register that is told to be
//! kept tells of runs of the machine. [`run_with`] ends a program with its status. What is answered of a file's bytes is
//! told by `abi_answers`, and how a call ends by `call_ends`.
//!
//! ```text
//! abi_main(alloc, &words, &mut files, &mut out) // of the word absent.elf: 3, and `read fault` is put
//! ```
#![tactic(auto)]

mod calls;

pub use calls::{abi_main, run_with};
