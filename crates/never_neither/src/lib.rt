//! That no file and list is neither accepted nor refused.
//!
//! The crate runs nothing. `analyser_core` says when a file and a list are accepted, and for which causes they are refused, and
//! `own_reports` that they aren't both. Here laws, each the contract of a function, say that they aren't neither, stage by stage:
//! bytes have an image or a refusal, an image points or a refusal of its flow, a list names or a refusal, points and names a
//! program, and a program no more heads than it may or more. None of them speaks of a call, so want of memory is no way out.
//! Behind the image they say that it can't be that there is neither, and not how to find out which: that is left to the calls
//! that do it.
//!
//! ```text
//! unrefused_files_are_accepted(); // ghost: the law is the function's clause
//! ```
#![tactic(auto)]

pub mod laws;
