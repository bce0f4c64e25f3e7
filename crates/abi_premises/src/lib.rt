//! What is assumed of runs, point by point of a table.
//!
//! The crate promises that [`assumptions`] is the list of `specs/Assumed.antt`: what a run has to keep at the
//! points of a table that neither the table nor the code tells.
//!
//! ```text
//! let assumed = assumptions(alloc, &image, &rows)?;
//! ```
#![tactic(auto)]

mod assumed;
mod premises;

pub use assumed::assumptions;
pub use premises::{Assumption, Premise};
