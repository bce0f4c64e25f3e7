//! What assignments make of one row, unknown words among them.
//!
//! A list of assignments makes a set of rows of one: a row for each choice of its unknown words. [`images`] gives a few rows
//! that generate the module of that set: the row under zeros, and for each unknown assignment what it adds. The row is a
//! state, or a map of states, or a matrix of any number of columns. Where many rows go through one long list,
//! [`prepare`] makes matrices of the list once, and [`images_along`] takes them. Which rows go where is left to the crates
//! above.
//!
//! ```text
//! let rows = images(alloc, assigns, &state)?;
//! ```
#![tactic(auto)]

mod rows;

pub use rows::{images, images_along, prepare};
