//! Rows of 64-bit words, and the two facts about a word that elimination needs.
//!
//! A [`Row`] of N words, N from 1 to 512, is seen by contracts as the list of its words. Each call
//! equals its plain definition: the exact sum, wrapped once modulo 2^64. No call here takes memory
//! or refuses. What a set of rows generates, and how rows are eliminated, is left to the crates
//! above.
//!
//! ```text
//! let mut row = Row::<3>::zero().with(0, 4);
//! row.add_scaled(2, &Row::zero().with(1, 5));
//! row.lead() == Some(0) && row.get(1) == 10
//! ```
#![tactic(auto)]

mod lanes;
mod masks;
mod rows;
mod slices;
mod words;

pub use rows::Row;
pub use words::{inverse, odd_part};
