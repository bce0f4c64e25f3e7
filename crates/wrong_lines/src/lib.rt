//! What is wrong with texts that are no reports'.
//!
//! The crate runs nothing. `report_read` judges a text line by line, by what it keeps of those before; here a law tells the same
//! refusals over the lines alone: which line is the first wrong one, and whether the grammar, a name, the order or a basis is.
//!
//! ```text
//! refusals_are_over_lines(); // ghost: the law is the function's clause
//! ```
#![tactic(auto)]

pub mod laws;
