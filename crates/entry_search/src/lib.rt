//! The search that fills a table of entry values for the code of an image.
//!
//! The crate promises that the rows that [`tabulate`] answers are a settled table with each of the given
//! procedures, by the check of the crate below. Of the search itself nothing is promised but that it ends
//! and that it is safe: another order of its steps may give other rows, as settled as these.
//!
//! ```text
//! let rows = tabulate(alloc, &image, &[image.entry], Items::new(alloc), Items::new(alloc), LIMITS)?;
//! ```
#![tactic(auto)]

mod drafts;
mod follow;
mod index;
mod join;
mod limits;
mod listed;
mod owe;
mod search;

pub use limits::{LIMITS, Limits, NoTable};
pub use search::tabulate;
