//! Whether what a report tells of is in a file.
//!
//! A report names slots by their procedures, and points. [`stranger`] gives the first procedure or point that the file doesn't
//! have. What is told of the points is left to others.
//!
//! ```text
//! stranger(&points, &report) // None, where the report is one of the file's code
//! ```
#![tactic(auto)]

mod strangers;

pub use strangers::stranger;
